// What a family of cases came to.
use plain::words::No;
use std::alloc::{AllocError, Global};
use std::fmt::Debug;
use std::io;

#[derive(Drop)]
pub struct Tally {
    heap: Global,
    cases: u64,
    calls: u64,
    granted: u64,
    // How many calls were refused with each number.
    refused: [u64; 16],
    // The first call that was answered in two ways.
    difference: Option<String>,
}

// The number under which the documents list a refusal, by which it is counted and printed; 0 is want of memory.
pub fn number(no: &No) -> u8 {
    match *no {
        No::Refused(why) | No::AtRecord(why, _) => why as u8,
        No::Overfull(_) => 8,
        No::Memory => 0,
    }
}

impl Tally {
    pub fn new(heap: Global) -> Tally {
        Tally {
            heap,
            cases: 0,
            calls: 0,
            granted: 0,
            refused: [0; 16],
            difference: None,
        }
    }

    pub fn case(&mut self) {
        self.cases = self.cases.wrapping_add(1);
    }

    fn count<T>(&mut self, answer: &Result<T, No>) {
        self.calls = self.calls.wrapping_add(1);
        match answer {
            Ok(_) => self.granted = self.granted.wrapping_add(1),
            Err(no) => {
                if let Some(count) = self.refused.get_mut(usize::from(number(no))) {
                    *count = count.wrapping_add(1);
                }
            }
        }
    }

    // Counts a call, and compares its two answers.
    pub fn answer<C: Debug, T: PartialEq + Debug>(
        &mut self,
        call: &C,
        first: &Result<T, No>,
        second: &Result<T, No>,
    ) -> Result<(), AllocError> {
        self.count(second);
        self.same(call, first, second)
    }

    // Compares what a call left or gave on both sides.
    pub fn same<C: Debug, T: PartialEq + Debug>(
        &mut self,
        call: &C,
        first: &T,
        second: &T,
    ) -> Result<(), AllocError> {
        if self.difference.is_none() && *first != *second {
            self.difference = Some(format!(in self.heap; "{call:?}: {first:?}, but {second:?}")?);
        }
        Ok(())
    }

    // One line that says it all.
    pub fn print(&self, rt: &HostRuntime, name: &str) -> io::Result<()> {
        let (cases, calls, granted) = (self.cases, self.calls, self.granted);
        print!(rt; "{name}: cases {cases}, calls {calls}, granted {granted}")?;
        for (number, count) in self.refused.iter().enumerate() {
            if *count > 0 {
                print!(rt; ", refused with {number}: {count}")?;
            }
        }
        match &self.difference {
            None => println!(rt; ", no difference"),
            Some(told) => println!(rt; ", DIFFERENT at {told}"),
        }
    }
}
