// What replay counts: the cases of each call, and how often each number is answered.
#![tactic(auto)]

use std::{fmt, io};

// The calls by their numbers, from 1 on: those of castribba.h, and behind them the plain forms of those that change a map.
const CALLS: [&str; 25] = [
    "castribba_apply",
    "castribba_merge",
    "castribba_reset_remove",
    "castribba_update",
    "castribba_rm_get",
    "castribba_rm_read_ctx",
    "castribba_get",
    "castribba_len",
    "castribba_len_count",
    "castribba_validate_op",
    "castribba_validate_op_start",
    "castribba_validate_op_end",
    "castribba_validate_merge",
    "castribba_validate_merge_actor",
    "castribba_validate_merge_counter",
    "castribba_validate_merge_our_key",
    "castribba_validate_merge_their_key",
    "castribba_clock_advance",
    "castribba_apply_deleted",
    "castribba_reset_remove_deleted",
    "byvalue::apply",
    "byvalue::merge",
    "byvalue::reset_remove",
    "byvalue::counting::apply_deleted",
    "byvalue::counting::reset_remove_deleted",
];

// The numbers of 01, from 0 on.
const NUMBERS: usize = 13;

// Whether a call answers a number of 01's; the others answer what such a call carries.
pub fn answers_number(call: usize) -> bool {
    !matches!(call, 9 | 11 | 12 | 14 | 15 | 16 | 17 | 19 | 20)
}

// The number of a call's form on maps by value, where it has one.
pub fn plain_form(call: usize) -> Option<usize> {
    match call {
        1 => Some(21),
        2 => Some(22),
        3 => Some(23),
        19 => Some(24),
        20 => Some(25),
        _ => None,
    }
}

// The cases of a call, how many of them differ from the file, and the first that does.
#[derive(Clone, Copy)]
struct Cases {
    all: u64,
    differences: u64,
    first: Option<u64>,
}

impl Cases {
    fn count(&mut self, case: u64, agreed: bool) {
        self.all = self.all.wrapping_add(1);
        if !agreed {
            self.differences = self.differences.wrapping_add(1);
            self.first = self.first.or(Some(case));
        }
    }
}

impl fmt::Display for Cases {
    fn fmt<W: fmt::Write>(&self, f: &mut fmt::Formatter<W>) -> fmt::Result {
        write!(f, "{} cases, {} differences", self.all, self.differences)?;
        match self.first {
            Some(case) => write!(f, ", the first in case {case}"),
            None => Ok(()),
        }
    }
}

#[derive(Drop)]
pub struct Tally {
    calls: [Cases; CALLS.len()],
    numbers: [u64; NUMBERS],
}

impl Tally {
    pub fn new() -> Self {
        let none = Cases {
            all: 0,
            differences: 0,
            first: None,
        };
        Tally {
            calls: [none; CALLS.len()],
            numbers: [0; NUMBERS],
        }
    }

    pub fn count_number(&mut self, number: usize) {
        if let Some(times) = self.numbers.get_mut(number) {
            *times = times.wrapping_add(1);
        }
    }

    // Counts a case of a call, and whether the answer was the file's.
    pub fn count_case(&mut self, call: usize, case: u64, agreed: bool) {
        if let Some(cases) = self.calls.get_mut(call.wrapping_sub(1)) {
            cases.count(case, agreed);
        }
    }

    // A line for each call, and one for each number.
    pub fn print(&self, rt: &impl Print) -> io::Result<()> {
        for (name, cases) in CALLS.iter().zip(&self.calls) {
            println!(rt; "{name} {cases}")?;
        }
        for (number, times) in self.numbers.iter().enumerate() {
            println!(rt; "number {number} {times} times")?;
        }
        Ok(())
    }
}
