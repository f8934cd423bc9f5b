//! Each law of a tick is called once, and named limits are those of docs/FORMATS.md. Laws compute
//! nothing: their clauses are the statements.

use pf_commands::{MAX_TICK, NUMBERS};
use pf_num::Fx;
use pf_rot::{Rot, V2};
use pf_shapes::PLAYERS;
use pf_solver::{BIAS_FACTOR, ROUNDS, SLOP, STILL_SPEED, STILL_SPIN, STILL_TICKS};

#[test]
fn laws_of_numbers(rt: HostRuntime) {
    use pf_num::laws;
    use pf_rot::laws as rotations;
    laws::rounds_to_nearest_even();
    laws::roots_are_greatest();
    let (zero, one, greatest, tick) = laws::named_numbers();
    assert!(rt; zero == Fx::ZERO && one == Fx::ONE && greatest == Fx::MAX && tick == Fx::TICK);
    assert!(rt; Fx::from_raw(Fx::MAX.raw() + 1).is_none());
    rotations::lengths_are_greatest();
    rotations::nothing_turns_nothing();
    rotations::directions_are_at_most_one();
    assert_eq!(rt; rotations::named_values(), (V2::ZERO, Rot::UPRIGHT));
}

#[test]
fn laws_of_shapes(_rt: HostRuntime) {
    use pf_broad::laws as pairs;
    use pf_shapes::laws;
    laws::scene_lines_are_read();
    laws::long_numbers_are_out_of_range();
    laws::inertias_are_positive();
    laws::overlapping_is_symmetric();
    laws::bounds_that_share_a_position_overlap();
    laws::boxes_stay_in_their_bounds();
    laws::circles_stay_in_their_bounds();
    laws::bodies_that_share_a_position_overlap();
    laws::named_limits();
    pairs::pairs_are_exact();
    pairs::cells_contain_their_coordinates();
    pairs::overlapping_bounds_share_a_cell();
    pairs::named_limits();
}

#[test]
fn laws_of_contact_points(_rt: HostRuntime) {
    use pf_manifold::laws;
    laws::keys_are_in_order();
    laws::features_ascend();
    laws::best_axes_are_greatest();
    laws::incident_edges_face_the_reference();
    laws::crossings_lie_on_the_line();
    laws::circles_mirror();
    laws::points_touch();
    laws::closest_points_are_closest();
    laws::clipped_edges_lie_within();
    laws::circles_touch_where_they_reach();
    laws::gaps_are_mirrored();
    laws::upright_boxes_meet_where_they_overlap();
}

#[test]
fn laws_of_contacts(rt: HostRuntime) {
    use pf_cache::laws as contacts;
    use pf_islands::laws as groups;
    use pf_rows::laws as rows;
    use pf_solver::laws;
    contacts::contacts_are_found();
    contacts::updates_have_the_keys_of_points();
    contacts::first_notes_decide();
    contacts::stored_impulses_are_undone();
    contacts::no_work();
    rows::named_values();
    rows::named_limits();
    laws::rounds_keep_the_limits();
    laws::rounds_are_one_list();
    laws::other_orders_are_one_pass();
    laws::levels_are_solved_at_once();
    laws::levels_are_solved_as_the_list();
    laws::islands_are_solved_alone();
    laws::batches_are_solved_side_by_side();
    laws::named_limits();
    groups::groups_are_connected();
    groups::active_bodies_reach_awake_ones();
    groups::groups_sleep_as_wholes();
    assert!(rt; STILL_SPEED == 262_144 && STILL_SPIN == 524_288 && STILL_TICKS == 32);
    assert!(rt; ROUNDS == 10 && BIAS_FACTOR == 214_748_352 && SLOP == 167_772);
}

#[test]
fn laws_of_commands(_rt: HostRuntime) {
    use pf_commands::laws;
    laws::commands_have_one_encoding();
    laws::merge_is_associative();
    laws::merge_is_commutative();
    laws::merge_is_idempotent();
    laws::merge_with_empty();
    laws::puts_in_any_order();
    laws::puts_are_a_merge();
    laws::no_news_changes_nothing();
    laws::put_keeps_other_ticks();
    laws::merge_keeps_earlier_ticks();
    laws::least_ticks_are_least();
    laws::get_of_merge();
    laws::same_gets_same_map();
    laws::merge_stays_in_range();
    laws::get_of_commands_from();
    laws::ticks_make_up_the_map();
    laws::drops_keep_later_ticks();
    laws::merge_from_a_tick();
    laws::maps_from_a_tick();
    laws::same_weight_same_payload();
    laws::first_error_is_returned();
    laws::named_limits();
}

#[test]
fn laws_of_steps(rt: HostRuntime) {
    use pf_step::laws;
    assert!(rt; MAX_TICK == 1_048_576 && NUMBERS == 65_536 && PLAYERS == 8);
    laws::worlds_follow_earlier_commands();
    laws::commands_change_later_worlds();
    laws::sleepers_stay();
    laws::contacts_of_sleepers_keep_their_impulses();
    laws::static_bodies_never_move();
    laws::contacts_have_the_keys_of_touches();
    laws::impulses_are_within_friction();
    laws::commands_change_one_body();
    laws::stops_leave_no_velocity();
    laws::places_put_their_body();
    laws::timers_count_still_ticks();
    laws::sleepers_were_still();
    laws::rotations_stay_at_most_one();
}
