//! Maps of pairs that are filled in their order.
ghost use Rattle.std.specs.Prelude.{Ok};
ghost use Rattle.wf_value.specs.Data.{pairs_of, no_pairs};
ghost use Rattle.wf_value.specs.Pairs.{put};
ghost use Rattle.wf_value.specs.Plain.{plain};
ghost use Rattle.wf_eval.specs.Answers.{Answers, put_all};

use std::alloc::Global;
use wf_value::{Map, Raise, Text, Value};

/// The map of some pairs. The last is put first, as each earlier one is put into those behind it.
pub fn map_of(alloc: Global, mut pairs: Vec<(Text, Value)>) -> Result<Map, Raise>
    ensures { Answers (λ m. pairs_of m) result (Ok (put_all pairs.items no_pairs)) }
{
    let mut made = Map::new(alloc)?;
    while let Some((key, value)) = pairs.pop() {
        put(&mut made, key, value)?;
    }
    Ok(made)
}

/// Puts a value at a key.
#[tactic(auto, using(crate::proofs::Listed::pairs_listed))]
fn put(m: &mut Map, key: Text, value: Value) -> Result<(), Raise>
    ensures { Answers (λ u. pairs_of m.new) result (Ok (put key (plain value) (pairs_of m.old))) }
{
    m.insert(key, value)?;
    Ok(())
}
