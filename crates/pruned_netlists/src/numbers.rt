ghost use Rattle.std.specs.Prelude.{◌≡◌, ◌<◌, ◌≤◌, ◌^◌, length, slice_get, Some, IfOk};
ghost use Rattle.pruned_netlists.specs.Numbers.{place};

use av_base::NoMemory;
use std::alloc::Global;
use std::marker::Model;

/// Places of which some are marked: the marked ones are numbered anew in their order.
#[derive(Drop)]
pub(crate) struct Numbers {
    marks: Vec<bool>,
    places: Vec<u32>,
    count: u32,
}

impl Model for Numbers {
    ghost use Rattle.std.specs.Prelude.{List, Bool, length};
    ghost use Rattle.pruned_netlists.specs.Numbers.{AreNumbers};

    ghost Value = { List Bool };

    ghost view = { λ n. n.marks.items };

    ghost invariant = { λ n. AreNumbers n.marks.items (length n.marks.items) n.places.items n.count };
}

impl Numbers {
    pub(crate) fn new(alloc: Global, marks: Vec<bool>) -> Result<Numbers, NoMemory>
        requires { length marks.items ≤ 2 ^ 20 }
        ensures { IfOk result (λ numbers. numbers ≡ marks.items) }
    {
        let mut places = Vec::new(alloc);
        let mut count = 0u32;
        for number in 0..marks.len() {
            places.push(count)?;
            if marks[number] {
                count += 1;
            }
        }
        Ok(Numbers {
            marks,
            places,
            count,
        })
    }

    pub(crate) fn has(&self, number: u32) -> bool
        requires { number < length self.now }
        ensures { slice_get self.now number ≡ Some result }
    {
        self.marks[number as usize]
    }

    /// The new number: how many marked places stand before this one.
    pub(crate) fn place(&self, number: u32) -> u32
        ensures { result ≡ place self.now number }
    {
        match self.places.get(number as usize) {
            Some(place) => *place,
            None => self.count,
        }
    }
}
