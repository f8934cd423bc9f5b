//! Gates that try what no contract says: workers work side by side, and each passes its gate once
//! in each solve.

use pf_workers::Gate;
use std::alloc::{AllocError, Global};
use std::hint::spin_loop;
use std::sync::Arc;
use std::sync::atomic::{AtomicUsize, Ordering};

/// How often a worker looks whether another one has come.
const LOOKS: u32 = 100_000_000;

/// What one worker did at a gate.
#[derive(Debug, Drop)]
struct Visits {
    count: AtomicUsize,
    /// The turn after the one that it came for last.
    turns: AtomicUsize,
}

impl Visits {
    fn note(&self, turn: usize) {
        self.count.fetch_add(1, Ordering::SeqCst);
        self.turns.store(turn.saturating_add(1), Ordering::SeqCst);
    }

    /// Waits until the worker has come for this turn. Returns false if it does not come.
    fn wait_for(&self, turn: usize) -> bool {
        for _ in 0..LOOKS {
            if self.turns.load(Ordering::SeqCst) > turn {
                return true;
            }
            spin_loop();
        }
        false
    }
}

/// What the workers of a crew did at their gate.
#[derive(Debug, Drop)]
pub struct Book {
    workers: Vec<Visits>,
    /// How often the gate should have been shut for a worker.
    shut: AtomicUsize,
}

impl Book {
    pub fn new(alloc: Global, workers: usize) -> Result<Book, AllocError> {
        let mut visits = Vec::with_capacity(alloc, workers)?;
        for _ in 0..workers {
            visits.push(Visits {
                count: AtomicUsize::new(0),
                turns: AtomicUsize::new(0),
            })?;
        }
        Ok(Book {
            workers: visits,
            shut: AtomicUsize::new(0),
        })
    }

    fn note(&self, worker: usize, turn: usize) {
        if let Some(visits) = self.workers.get(worker) {
            visits.note(turn);
        }
    }

    /// Waits until this worker has come for this turn. Returns false if it does not come.
    fn wait_for(&self, worker: usize, turn: usize) -> bool {
        match self.workers.get(worker) {
            Some(visits) => visits.wait_for(turn),
            None => false,
        }
    }

    /// Waits until each worker has come for this turn. Returns false if one does not come.
    fn wait_for_all(&self, turn: usize) -> bool {
        for visits in &self.workers {
            if !visits.wait_for(turn) {
                return false;
            }
        }
        true
    }

    /// How often the gate should have been shut, how often each worker has come, and for how many
    /// turns.
    pub fn text(&self, alloc: Global) -> Result<String, AllocError> {
        let shut = self.shut.load(Ordering::SeqCst);
        let mut text = format!(in alloc; " shut {shut} passes")?;
        for visits in &self.workers {
            let count = visits.count.load(Ordering::SeqCst);
            let turns = visits.turns.load(Ordering::SeqCst);
            let words = format!(in alloc; " {count}/{turns}")?;
            text.push_str(&words)?;
        }
        Ok(text)
    }
}

/// For whom a gate is open.
#[derive(Clone, Copy, Debug)]
pub enum Rule {
    /// For each worker, once the others have come for the same turn.
    Meeting,
    /// The same, but a crew is told that nobody watches: so workers meet only if they are threads
    /// of their own also then.
    Unwatched,
    /// For each worker at once. A crew is told that nobody watches.
    Counted,
    /// For all but this worker in this turn.
    Shut {
        worker: usize,
        turn: usize,
    },
    /// For all but the workers from this one on in this turn.
    ShutFrom {
        worker: usize,
        turn: usize,
    },
    /// For each worker, but for this one in this turn only once another one has come for the turn;
    /// and for the other one in the turn before only once this one has come for this turn. So the
    /// other one's turn before lies between this one's turn before and this turn.
    After {
        worker: usize,
        turn: usize,
        other: usize,
    },
}

/// A gate that keeps a book. If it is always open, it only notes when it should be shut.
#[derive(Debug, Drop)]
pub struct TrialGate<const IS_OPEN: bool> {
    rule: Rule,
    book: Arc<Book, Global>,
}

impl<const IS_OPEN: bool> TrialGate<IS_OPEN> {
    pub fn new(rule: Rule, book: Arc<Book, Global>) -> TrialGate<IS_OPEN> {
        TrialGate { rule, book }
    }
}

impl<const IS_OPEN: bool> Gate for TrialGate<IS_OPEN> {
    ghost ALWAYS = { IS_OPEN };

    fn pass(&self, worker: usize, turn: usize) -> bool {
        self.book.note(worker, turn);
        let may_pass = match self.rule {
            Rule::Meeting | Rule::Unwatched => self.book.wait_for_all(turn),
            Rule::Counted => true,
            Rule::Shut {
                worker: shut_worker,
                turn: shut_turn,
            } => worker != shut_worker || turn != shut_turn,
            Rule::ShutFrom {
                worker: least_shut,
                turn: shut_turn,
            } => worker < least_shut || turn != shut_turn,
            Rule::After {
                worker: late_worker,
                turn: late_turn,
                other,
            } => {
                if worker == late_worker && turn == late_turn {
                    self.book.wait_for(other, turn)
                } else if worker == other && turn.saturating_add(1) == late_turn {
                    self.book.wait_for(late_worker, late_turn)
                } else {
                    true
                }
            }
        };
        if !may_pass {
            self.book.shut.fetch_add(1, Ordering::SeqCst);
        }
        IS_OPEN || may_pass
    }

    fn is_watched(&self) -> bool {
        !matches!(self.rule, Rule::Unwatched | Rule::Counted)
    }
}
