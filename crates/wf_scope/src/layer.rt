// A layer of variables.
ghost use Rattle.std.specs.Prelude.{[], IfOk, Some, map, true, ◌≡◌, ◌≤◌, ◌<◌, ◌+◌, ◌-◌, length, is_ok, if◌then◌else◌, option_map};
ghost use Rattle.std.specs.List.Sorted.{IsStrictlySortedBy-prop};
ghost use Rattle.std.specs.Map.{keys_of};
ghost use Rattle.wf_scope.specs.Firsts.{Covers, Covers-prop, HasNone, class_of};
ghost use Rattle.wf_scope.specs.Layers.{new_layer, variable_size, with_variable};
ghost use Rattle.wf_scope.specs.Names.{bound_of, is_whole, unbound};
ghost use Rattle.wf_value.specs.Data.{integer, pairs_of, pairs_size, size};
ghost use Rattle.wf_value.specs.Maps.{IsInOrder, key_cmp, place_of, value_at, with_value};
ghost use Rattle.wf_value.specs.Plain.{plain};
ghost use Rattle.wf_value.specs.declared.Value.TheVariants.{Int};

use crate::firsts::Firsts;
use crate::seek::seek;
use std::alloc::Global;
use wf_name::Name;
use wf_value::{OutOfMemory, Value};

/// Most layers hold no more variables.
const ROOM: usize = 8;

/// Variables by their names. A layer has a number, that of the layer outside it, if there is one, and the count of those around it.
///
/// The names stand in order. One without a value isn't bound.
#[derive(Drop)]
pub(crate) struct Layer {
    pub(crate) number: u64,
    pub(crate) outer: Option<u64>,
    pub(crate) depth: u64,
    /// What its variables come to.
    pub(crate) counted: u64,
    pub(crate) firsts: Firsts,
    pub(crate) vars: Vec<(Name, Option<Value>)>,
    ghost order: { IsInOrder vars.items } by { IsStrictlySortedBy-prop key_cmp (keys_of vars.items) },
    ghost sum: { counted ≡ pairs_size (pairs_of (bound_of vars.items)) },
    ghost covering: { Covers firsts.hints vars.items } by { Covers-prop _ _ },
}

impl Layer {
    ghost use Rattle.wf_scope.specs.Views.{layer_view};

    /// A layer without names, with room for some.
    pub(crate) fn fresh(alloc: Global) -> Result<Layer, OutOfMemory>
        ensures { IfOk result (λ l. l.counted ≡ 0) }
    {
        let vars = Vec::with_capacity(alloc, ROOM)?;
        Ok(Layer {
            number: 0,
            outer: None,
            depth: 0,
            counted: 0,
            firsts: Firsts::none(),
            vars,
        })
    }

    /// Gives a layer that binds nothing another number, and another place.
    #[inline(always)]
    pub(crate) fn stands(&mut self, number: u64, outer: Option<u64>, depth: u64)
        requires { self.old.counted ≡ 0 }
        ensures { layer_view self.new ≡ new_layer number outer depth }
    {
        self.number = number;
        self.outer = outer;
        self.depth = depth;
    }

    /// Takes all values away. The names stay, and where to look for them.
    #[inline(always)]
    pub(crate) fn clear(&mut self)
        ensures { self.new.counted ≡ 0 }
    {
        clear_names(&mut self.vars);
        self.counted = 0;
    }

    /// 0 only where no variable's name is of this class; else where to look first.
    #[inline(always)]
    pub(crate) fn hint(&self, class: usize) -> u8
        requires { class < 32 }
        ensures { result ≡ 0 → HasNone class (bound_of self.now.vars.items) }
    {
        self.firsts.hints[class]
    }

    /// The value of a variable, whose name is of this class.
    #[inline(always)]
    pub(crate) fn look(&self, class: usize, name: &Name) -> Option<&Value>
        requires class { class ≡ class_of name.now }
        requires below { class < 32 }
        ensures { option_map (λ v. plain v.now) result
            ≡ value_at name.now (bound_of self.now.vars.items) }
    {
        let hint = self.hint(class);
        if hint == 0 {
            return None;
        }
        let (_, value) = self.find(hint, name);
        value
    }

    /// Where this name stands, and its value; where it isn't there, its place is where it belongs. The place below the hint is tried first,
    /// and a layer without names isn't searched.
    #[inline(always)]
    pub(crate) fn find(&self, hint: u8, name: &Name) -> (Result<usize, usize>, Option<&Value>)
        ensures place { result.0 ≡ place_of name.now self.now.vars.items }
        ensures value { option_map (λ v. plain v.now) result.1
            ≡ value_at name.now (bound_of self.now.vars.items) }
    {
        if hint > 0 {
            let guess = (hint - 1) as usize;
            if guess < self.vars.len() && self.vars[guess].0.is(name) {
                return (Ok(guess), self.vars[guess].1.as_ref());
            }
        } else if self.vars.is_empty() {
            return (Err(0), None);
        }
        self.search(name)
    }

    /// Where this name stands, and its value, by a search among all names; where it isn't there, its place is where it belongs.
    #[inline(never)]
    fn search(&self, name: &Name) -> (Result<usize, usize>, Option<&Value>)
        ensures place { result.0 ≡ place_of name.now self.now.vars.items }
        ensures value { option_map (λ v. plain v.now) result.1
            ≡ value_at name.now (bound_of self.now.vars.items) }
    {
        match seek(self.vars.as_slice(), name.as_str()) {
            Ok(i) => (Ok(i), self.vars[i].1.as_ref()),
            Err(i) => (Err(i), None),
        }
    }

    /// Makes or changes the variable of this name, at its place: it counted so much, and counts so much now. Without memory the layer stays,
    /// and the value is dropped.
    #[inline(always)]
    pub(crate) fn put(
        &mut self,
        place: Result<usize, usize>,
        class: usize,
        name: &Name,
        value: Value,
        old: u64,
        new: u64,
    ) -> Result<(), OutOfMemory>
        requires place { place ≡ place_of name.now self.old.vars.items }
        requires class { class ≡ class_of name.now }
        requires below { class < 32 }
        requires old { old ≡ variable_size name.now
            (value_at name.now (bound_of self.old.vars.items)) }
        requires new { new ≡ 2 + length name.now + size (plain value) }
        requires room { self.old.counted - old + new ≤ 18446744073709551615 }
        ensures { layer_view self.new ≡ (if is_ok result
            then with_variable name.now (plain value) (layer_view self.old)
            else layer_view self.old) }
    {
        put_named(&mut self.vars, place, name, value)?;
        self.firsts.put(class, place);
        self.counted = self.counted - old + new;
        Ok(())
    }

    /// Writes a whole number over another one, if this name stands for one where the hint tells, and answers whether it did. Otherwise the
    /// layer stays.
    #[inline(always)]
    pub(crate) fn renew(&mut self, hint: u8, name: &Name, n: i64) -> bool
        requires { 0 < hint }
        ensures after { layer_view self.new ≡ (if result
            then with_variable name.now (integer n) (layer_view self.old)
            else layer_view self.old) }
        ensures whole { result ≡ true
            → is_whole (value_at name.now (bound_of self.old.vars.items)) ≡ true }
    {
        put_whole(&mut self.vars, (hint - 1) as usize, name, n)
    }
}

/// Gives the name at its place a value. Without memory all stays.
#[inline(always)]
fn put_named(
    names: &mut Vec<(Name, Option<Value>)>,
    place: Result<usize, usize>,
    name: &Name,
    value: Value,
) -> Result<(), OutOfMemory>
    requires { place ≡ place_of name.now names.old.items }
    ensures { names.new.items ≡ (if is_ok result
        then with_value name.now (Some value) names.old.items else names.old.items) }
{
    match place {
        Ok(i) => names[i].1 = Some(value),
        Err(i) => names.insert(i, (name.copy()?, Some(value)))?,
    }
    Ok(())
}

/// Writes a whole number over another one, if this name stands for one at this place, and answers whether it did. Otherwise all stays.
#[inline(always)]
fn put_whole(names: &mut Vec<(Name, Option<Value>)>, i: usize, name: &Name, n: i64) -> bool
    requires { IsInOrder names.old.items }
    ensures after { names.new.items ≡ (if result
        then with_value name.now (Some (Int n)) names.old.items else names.old.items) }
    ensures whole { result ≡ true
        → is_whole (value_at name.now (bound_of names.old.items)) ≡ true }
{
    if i < names.len() && is_whole(&names[i].1) && names[i].0.is(name) {
        names[i].1 = Some(Value::Int(n));
        return true;
    }
    false
}

/// Whether it is a whole number.
#[inline(always)]
fn is_whole(value: &Option<Value>) -> bool
    ensures { result ≡ is_whole (option_map plain value.now) }
{
    matches!(value, Some(Value::Int(_)))
}

/// Takes the values of all names away.
#[inline(always)]
fn clear_names(names: &mut Vec<(Name, Option<Value>)>)
    ensures { names.new.items ≡ map unbound names.old.items }
{
    let mut i = 0;
    while i < names.len() {
        names[i].1 = None;
        i += 1;
    }
}
