//! The longest list of landmarks that have one order in both texts.
ghost use Rattle.std.specs.Prelude.{◌≡◌, IfOk};
ghost use Rattle.rec_diff.specs.Comparing.{longest_from};
ghost use Rattle.rec_diff.specs.proving.Ranks.{IsRanking};

use crate::turn::Place;
use std::alloc::{AllocError, Global};

/// How many landmarks can follow one another in both texts from each one on, itself included; the last one's comes first.
/// `tops[n]` is the greatest place in the new text from which more than n can.
#[derive(Drop)]
struct Ranking {
    ranks: Vec<usize>,
    tops: Vec<usize>,
}

impl Ranking {
    ghost use Rattle.std.specs.Prelude.{◌≡◌, List, ◌∷◌, [], OnOk};
    ghost use Rattle.rec_diff.specs.declared.turn.Place.{Place as AnyPlace};
    ghost use Rattle.rec_diff.specs.proving.Ranks.{IsRanking};

    fn new(alloc: Global) -> Ranking
        ensures { IsRanking [] result }
    {
        Ranking {
            ranks: Vec::new(alloc),
            tops: Vec::new(alloc),
        }
    }

    /// Puts a landmark before those that are ranked.
    fn put(&mut self, mark: Place) -> Result<(), AllocError>
        ensures { OnOk result ((marks : List AnyPlace) → IsRanking marks self.old → IsRanking (mark ∷ marks) self.new) }
    {
        let above = self.tops.partition_point(|top| mark.new < *top);
        if above < self.tops.len() {
            self.tops[above] = mark.new;
        } else {
            self.tops.push(mark.new)?;
        }
        self.ranks.push(above + 1)?;
        Ok(())
    }
}

fn ranked(alloc: Global, marks: &[Place]) -> Result<Ranking, AllocError>
    ensures { IfOk result (λ ranking. IsRanking marks.now ranking) }
{
    let mut ranking = Ranking::new(alloc);
    for mark in marks.iter().rev() {
        ranking.put(*mark)?;
    }
    Ok(ranking)
}

/// The longest list of these landmarks that has one order in both texts, where there is a choice the earlier ones.
pub fn longest(alloc: Global, marks: &[Place]) -> Result<Vec<Place>, AllocError>
    ensures { IfOk result (λ chosen. chosen.items ≡ longest_from 0 marks.now) }
{
    let ranking = ranked(alloc, marks)?;
    let mut ranks = ranking.ranks;
    let mut left = ranking.tops.len();
    let mut chosen = Vec::with_capacity(alloc, left)?;
    for mark in marks {
        if ranks.pop() == Some(left) {
            chosen.push(*mark)?;
            left -= 1;
        }
    }
    Ok(chosen)
}
