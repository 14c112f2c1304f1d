// The turns of a loop.
ghost use Rattle.std.specs.Prelude.{◌≡◌, ◌+ℤ◌, ◌∷◌, [], IfOk, None, if◌then◌else◌, int_lt, option_map, pos, true};
ghost use Rattle.wf_frames.specs.Frames.{left_view, mark_of};
ghost use Rattle.wf_frames.specs.Loops.{FrameTurns, TurnsSo, is_at_loop};
ghost use Rattle.wf_model.specs.Config.{OfList, OfRange, next_of};
ghost use Rattle.wf_value.specs.Plain.{plain};

use crate::frames::{Frame, Left, Looping};
use std::alloc::Global;
use wf_value::{OutOfMemory, Value};

/// No execution makes so many iterations; an index below it is a whole number of the language.
const INDEX_LIMIT: u64 = 9_223_372_036_854_775_808;

/// A turn of a loop: the loop's node, the value, and the index, which is a whole number of the language.
#[derive(Drop)]
pub struct Turn {
    pub node: u32,
    pub value: Value,
    pub index: u64,
}

/// What a range has left behind its first number.
#[inline(always)]
fn behind(first: i64, last: i64) -> Left
    ensures { left_view result
        ≡ (if int_lt first last then OfRange (first +ℤ pos 1) last else OfList []) }
{
    if first < last {
        Left::Range(first + 1, last)
    } else {
        Left::Nothing
    }
}

impl Left {
    /// The next value is taken, if one is left.
    #[inline(always)]
    pub fn take(&mut self, alloc: Global) -> Result<Option<Value>, OutOfMemory>
        ensures { IfOk result (λ o. option_map (λ v. (plain v, left_view self.new)) o
            ≡ next_of (left_view self.old)) }
    {
        if let Left::Range(first, last) = &*self {
            let (first, last) = (*first, *last);
            *self = behind(first, last);
            return Ok(Some(Value::Int(first)));
        }
        match self {
            Left::Items(list, at) => {
                let items = list.items();
                if *at >= items.len() {
                    return Ok(None);
                }
                let item = items[*at].copy(alloc)?;
                *at += 1;
                Ok(Some(item))
            }
            _ => Ok(None),
        }
    }
}

impl Looping {
    /// It goes on behind its next value, if one is left. An index above the greatest whole number is answered as want of memory: no
    /// execution makes so many turns.
    #[inline(always)]
    fn turn(&mut self, alloc: Global) -> Result<Option<Turn>, OutOfMemory>
        ensures { IfOk result (λ o. TurnsSo o self.old self.new) }
    {
        let Some(value) = self.left.take(alloc)? else {
            return Ok(None);
        };
        let at = self.index;
        if at >= INDEX_LIMIT {
            return Err(OutOfMemory);
        }
        self.index = at + 1;
        Ok(Some(Turn {
            node: self.node,
            value,
            index: at,
        }))
    }
}

impl Frame {
    /// A loop goes on behind its next value, if one is left.
    #[inline(always)]
    pub(crate) fn turn(&mut self, alloc: Global) -> Result<Option<Turn>, OutOfMemory>
        requires at { is_at_loop (self.old ∷ []) ≡ true }
        ensures turned { IfOk result (λ o. FrameTurns o self.old self.new) }
        ensures mark { mark_of self.new ≡ None }
    {
        let Frame::Loop(looping) = self else {
            unreachable!()
        };
        looping.as_mut().turn(alloc)
    }
}
