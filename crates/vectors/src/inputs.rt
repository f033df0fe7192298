// What an opening is given.
use crate::line::{Line, MOST};

// Room for the lists of any line.
#[derive(Clone, Copy)]
pub struct Room {
    counts: [u32; MOST],
    weights: [f64; MOST],
}

// How many clusters, and the two lists.
#[derive(Clone, Copy)]
pub struct Input<'a> {
    pub clusters: u64,
    pub counts: &'a [u32],
    pub weights: &'a [f64],
}

impl Room {
    pub fn new() -> Room {
        Room {
            counts: [0; MOST],
            weights: [0.0; MOST],
        }
    }

    pub fn read<'a>(&'a mut self, line: &mut Line) -> Option<Input<'a>> {
        let Room { counts, weights } = self;
        Some(Input {
            clusters: u64::from(line.number()?),
            counts: line.list(counts)?,
            weights: line.list(weights)?,
        })
    }
}
