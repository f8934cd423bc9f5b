//! Each law of peers and sessions is called once. Laws compute nothing: their clauses are the
//! statements.

#[test]
fn laws_of_worlds_that_peers_show(_rt: HostRuntime) {
    use pf_rollback::laws;
    laws::same_commands_same_worlds();
    laws::unsealed_peers_simulate_from_tick_zero();
    laws::seals_change_no_shown_world();
    laws::shown_worlds_are_simulations_of_all_commands();
    laws::settling_goes_on_tick_by_tick();
}

#[test]
fn laws_of_commands_of_peers(_rt: HostRuntime) {
    use pf_rollback::laws;
    laws::other_calls_seal_nothing();
    laws::issued_commands_can_be_taken();
    laws::numbers_follow_the_greatest();
    laws::dropping_keeps_earlier_ticks();
    laws::sealing_keeps_later_ticks();
}

#[test]
fn laws_of_counts_of_peers(_rt: HostRuntime) {
    use pf_rollback::laws;
    laws::counts_are_saturated_sums();
    laws::last_ticks_are_greatest();
    laws::named_limits();
}

#[test]
fn laws_of_sessions(_rt: HostRuntime) {
    use pf_events::laws;
    laws::shown_worlds_are_simulated();
    laws::merging_both_ways_makes_maps_equal();
    laws::same_commands_show_one_world();
    laws::refused_events_change_nothing();
    laws::named_limits();
}

#[test]
fn laws_of_replies(_rt: HostRuntime) {
    use pf_events::laws;
    laws::settles_change_no_reply();
    laws::repeats_change_no_reply();
    laws::same_commands_same_replies();
    laws::order_and_repeats_do_not_matter();
}

#[test]
fn laws_of_sessions_in_threads(_rt: HostRuntime) {
    use pf_sessions::laws;
    laws::transposes_exchange_peers();
    laws::named_limits();
    pf_links::laws::named_limits();
    pf_scripts::laws::named_limits();
    pf_pool::laws::named_limits();
}
