//! Edges that are laid one after another.
ghost use Rattle.std.specs.Prelude.{◌≡◌, ◌+◌, suc, List, [], ◌∷◌, IfOk, OnOk, drop, map};
ghost use Rattle.wf_assigned.specs.Edges as edges;
ghost use Rattle.wf_assigned.specs.Edges.{Block as Around, block_of};
ghost use Rattle.wf_assigned.specs.Laid.{Adds, Closes, Finds, Opens, Puts, site_of};
ghost use Rattle.wf_model.specs.Spots.{entries_size};
ghost use Rattle.wf_ast.specs.Tree as t;
ghost use Rattle.wf_ast.specs.View.{entry_view, policy_option_view, step_view, steps_in};

use crate::blocks::{Block, Here, step_numbers};
use crate::names::{NameList, written_by};
use crate::points::{Edge, Exit, Point};
use crate::sizes::next;
use std::alloc::Global;
use wf_ast::{Entry, Policy, Step, StepList};
use wf_value::{OutOfMemory, Text};

/// The edges so far, and the lists of steps that a jump may reach, the innermost first.
#[derive(Drop)]
pub(crate) struct Walk {
    pub(crate) edges: Vec<Edge>,
    pub(crate) blocks: Vec<Block>,
}

impl Walk {
    /// Lays an edge.
    pub(crate) fn edge(&mut self, edge: Edge) -> Result<(), OutOfMemory>
        ensures { OnOk result (Adds self.old self.new (edge ∷ [])) }
    {
        self.edges.push(edge)?;
        Ok(())
    }

    /// Lays an edge in the same layer, on which names are written.
    pub(crate) fn writing(
        &mut self,
        here: Here,
        from: Point,
        to: Point,
        writes: NameList,
    ) -> Result<(), OutOfMemory>
        ensures { OnOk result ((around : List Around) → Adds self.old self.new
            (edges.writing (site_of here around) from to writes ∷ [])) }
    {
        self.edge(Edge {
            from,
            to,
            keeps: here.depth,
            depth: here.depth,
            writes,
        })
    }

    /// Lays an edge in the same layer.
    pub(crate) fn passing(
        &mut self,
        alloc: Global,
        here: Here,
        from: Point,
        to: Point,
    ) -> Result<(), OutOfMemory>
        ensures { OnOk result ((around : List Around) → Adds self.old self.new
            (edges.passing (site_of here around) from to ∷ [])) }
    {
        self.writing(here, from, to, NameList::new(alloc))
    }

    /// Lays an edge to where something leads, if it leads anywhere.
    pub(crate) fn leading(
        &mut self,
        alloc: Global,
        from: Point,
        out: Option<Exit>,
    ) -> Result<(), OutOfMemory>
        ensures { OnOk result (Adds self.old self.new (edges.to_some from out)) }
    {
        match out {
            None => Ok(()),
            Some(exit) => self.edge(Edge {
                from,
                to: exit.point,
                keeps: exit.depth,
                depth: exit.depth,
                writes: NameList::new(alloc),
            }),
        }
    }

    /// Lays an edge into a new layer, to the first of these steps, which has this number. Where there are none it leads on.
    pub(crate) fn entering(
        &mut self,
        alloc: Global,
        depth: u32,
        from: Point,
        steps: &StepList,
        first: u32,
        writes: NameList,
        out: Option<Exit>,
    ) -> Result<(), OutOfMemory>
        ensures { OnOk result (Adds self.old self.new
            (edges.entering depth from (steps_in steps.now) first writes out)) }
    {
        if steps.items().is_empty() {
            self.leading(alloc, from, out)
        } else {
            self.edge(Edge {
                from,
                to: Point::At(first),
                keeps: depth,
                depth: next(depth)?,
                writes,
            })
        }
    }

    /// Lays the edges of an end.
    pub(crate) fn ending(
        &mut self,
        alloc: Global,
        here: Here,
        number: u32,
        next: &Option<Text>,
        out: Option<Exit>,
    ) -> Result<(), OutOfMemory>
        ensures { OnOk result ((around : List Around) → Finds self.old.blocks.items around
            → Adds self.old self.new
            (edges.ending (site_of here around) number next.now out)) }
    {
        self.leading(alloc, Point::EndOf(number), here.fails)?;
        let follow = here.follow(self.blocks.as_slice(), next, out);
        self.leading(alloc, Point::EndOf(number), follow)
    }

    /// Lays the edges of the assign of this number, behind its evaluation.
    pub(crate) fn assign(
        &mut self,
        alloc: Global,
        here: Here,
        entries: &[Entry],
        number: u32,
    ) -> Result<u32, OutOfMemory>
        ensures number { IfOk result (λ n. n ≡ suc number + entries_size (map entry_view entries.now)) }
        ensures adds { IfOk result (λ n. (around : List Around)
            → Adds self.old self.new
            (edges.passing (site_of here around) (Point.At number)
            (edges.next_entry (map entry_view entries.now) (suc number) number)
            ∷ edges.entries_edges (map entry_view entries.now) (suc number) number
            (site_of here around))) }
    {
        let first = next(number)?;
        let to = next_entry(entries, 0, first, number);
        self.passing(alloc, here, Point::At(number), to)?;
        self.entries(alloc, here, entries, first, number)
    }

    /// Lays the edges of entries, from this number on, of the assign of that number.
    fn entries(
        &mut self,
        alloc: Global,
        here: Here,
        entries: &[Entry],
        first: u32,
        assign: u32,
    ) -> Result<u32, OutOfMemory>
        ensures number { IfOk result (λ n. n ≡ first + entries_size (map entry_view entries.now)) }
        ensures adds { IfOk result (λ n. (around : List Around)
            → Adds self.old self.new
            (edges.entries_edges (map entry_view entries.now) first assign
            (site_of here around))) }
    {
        let mut number = first;
        for index in 0..entries.len() {
            let behind = next(number)?;
            let to = next_entry(entries, index + 1, behind, assign);
            let writes = written_by(alloc, &entries[index])?;
            self.writing(here, Point::At(number), to, writes)?;
            self.leading(alloc, Point::At(number), here.fails)?;
            number = behind;
        }
        Ok(number)
    }

    /// Lays the edge from a failed body to its start, where it is tried again.
    pub(crate) fn retrying(
        &mut self,
        alloc: Global,
        here: Here,
        policy: &Option<Policy>,
        number: u32,
    ) -> Result<(), OutOfMemory>
        ensures { OnOk result ((around : List Around) → Adds self.old self.new
            (edges.retrying (policy_option_view policy.now) number (site_of here around))) }
    {
        match policy {
            None => Ok(()),
            Some(_) => {
                let body = next(number)?;
                self.passing(alloc, here, Point::FailOf(number), Point::At(body))
            }
        }
    }

    /// Goes into a list of steps, which is then the innermost.
    pub(crate) fn open(
        &mut self,
        alloc: Global,
        steps: &StepList,
        first: u32,
        depth: u32,
        is_closed: bool,
    ) -> Result<(), OutOfMemory>
        ensures { OnOk result (Opens self.old self.new
            (block_of (steps_in steps.now) first depth) is_closed) }
    {
        let numbers = step_numbers(alloc, steps.items(), first)?;
        let block = Block {
            numbers,
            depth,
            is_closed,
        };
        self.put(block)
    }

    /// Puts a list of steps before the others.
    fn put(&mut self, block: Block) -> Result<(), OutOfMemory>
        ensures { OnOk result (Puts self.old self.new block) }
    {
        self.blocks.insert(0, block)?;
        Ok(())
    }

    /// Goes out of the innermost list of steps. Outside of all it does nothing.
    pub(crate) fn close(&mut self)
        ensures { Closes self.old self.new }
    {
        if !self.blocks.is_empty() {
            self.blocks.remove(0);
        }
    }
}

/// The point of the entry at this index, whose number it would be, or else the end of the assign.
fn next_entry(entries: &[Entry], index: usize, number: u32, assign: u32) -> Point
    ensures { result ≡ edges.next_entry (map entry_view (drop index entries.now)) number assign }
{
    if index < entries.len() {
        Point::At(number)
    } else {
        Point::EndOf(assign)
    }
}

/// The point of the step at this index, whose number it would be, or else where the list's end leads.
pub(crate) fn next_step(
    here: Here,
    steps: &[Step],
    index: usize,
    number: u32,
    out: Option<Exit>,
) -> Option<Exit>
    ensures { (around : List Around)
        → result ≡ edges.first_in (site_of here around)
        (t.steps (map step_view (drop index steps.now))) number out }
{
    if index < steps.len() {
        Some(here.exit(Point::At(number)))
    } else {
        out
    }
}
