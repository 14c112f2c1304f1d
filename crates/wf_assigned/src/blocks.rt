//! The lists of steps that a jump may reach.
ghost use Rattle.std.specs.Prelude.{◌≡◌, suc, IfOk, List, map};
ghost use Rattle.wf_assigned.specs.Edges.{Block as Around, number_in};
ghost use Rattle.wf_assigned.specs.Edges as edges;
ghost use Rattle.wf_assigned.specs.Laid.{Finds, found_in, site_of};
ghost use Rattle.wf_assigned.specs.Numbers.{number_of};
ghost use Rattle.wf_ast.specs.Tree as t;
ghost use Rattle.wf_ast.specs.View.{step_view};
ghost use Rattle.wf_value.specs.Pairs.{Text as Bytes};

use crate::numbers::Numbers;
use crate::points::{Exit, Looping, Point};
use crate::sizes::{behind_body, next};
use std::alloc::Global;
use wf_ast::Step;
use wf_value::{OutOfMemory, Text};

/// A list of steps: their numbers by their names, how many layers stand around them, and whether no jump leads out of it.
#[derive(Drop)]
pub(crate) struct Block {
    pub(crate) numbers: Numbers,
    pub(crate) depth: u32,
    pub(crate) is_closed: bool,
}

/// What stands around a point, but for the lists of steps.
#[derive(Clone, Copy)]
pub(crate) struct Here {
    pub(crate) depth: u32,
    pub(crate) looped: Looping,
    /// Where errors go.
    pub(crate) fails: Option<Exit>,
}

/// The numbers of steps by their names, from this one on: of steps of one name the first's.
pub(crate) fn step_numbers(
    alloc: Global,
    steps: &[Step],
    first: u32,
) -> Result<Numbers, OutOfMemory>
    ensures { IfOk result (λ numbers. (x : Bytes)
        → number_of numbers x ≡ number_in x (t.steps (map step_view steps.now)) first) }
{
    let mut numbers = Numbers::new(alloc);
    let mut number = first;
    for step in steps {
        numbers.add(step.name.as_str(), number)?;
        number = behind_body(number, &step.body)?;
    }
    Ok(numbers)
}

/// The first step of the name, in the innermost list that has one and that a jump may reach.
fn find_step(blocks: &[Block], name: &str) -> Option<Exit>
    ensures { result ≡ found_in name.now blocks.now }
{
    for block in blocks {
        if let Some(number) = block.numbers.find(name) {
            return Some(Exit {
                point: Point::At(number),
                depth: block.depth,
            });
        }
        if block.is_closed {
            return None;
        }
    }
    None
}

impl Here {
    /// The point, with the layers around here.
    pub(crate) fn exit(self, point: Point) -> Exit
        ensures { result ≡ record { point = point; depth = self.depth } }
    {
        Exit {
            point,
            depth: self.depth,
        }
    }

    /// The same in one layer more.
    pub(crate) fn deeper(self) -> Result<u32, OutOfMemory>
        ensures { IfOk result (λ depth. depth ≡ suc self.depth) }
    {
        next(self.depth)
    }

    /// Where a `next` leads from here.
    fn jump(self, blocks: &[Block], name: &str) -> Option<Exit>
        ensures { (around : List Around) → Finds blocks.now around
            → result ≡ edges.jump (site_of self around) name.now }
    {
        match name {
            "end" => None,
            "continue" => match self.looped {
                Looping::InLoop(number, depth) => Some(Exit {
                    point: Point::HeadOf(number),
                    depth,
                }),
                Looping::NoLoop | Looping::InTurn => None,
            },
            "break" => match self.looped {
                Looping::InLoop(number, depth) => Some(Exit {
                    point: Point::EndOf(number),
                    depth,
                }),
                Looping::NoLoop | Looping::InTurn => None,
            },
            _ => find_step(blocks, name),
        }
    }

    /// Where an end leads: to its `next`, or else on.
    pub(crate) fn follow(
        self,
        blocks: &[Block],
        next: &Option<Text>,
        out: Option<Exit>,
    ) -> Option<Exit>
        ensures { (around : List Around) → Finds blocks.now around
            → result ≡ edges.follow (site_of self around) next.now out }
    {
        match next {
            None => out,
            Some(name) => self.jump(blocks, name.as_str()),
        }
    }
}
