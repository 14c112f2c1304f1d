// The layers of an execution.
ghost use Rattle.std.specs.Prelude.{true, false, suc, ◌≡◌, ◌≤◌, ◌<◌, ◌+◌, ◌-◌, [], length, map, min, IfNone, IfOk, IfSome, OnErr, OnOk, is_ok, if◌then◌else◌, option_map, Some, None, slice_get};
ghost use Rattle.wf_value.specs.Data.{integer, size};
ghost use Rattle.wf_value.specs.Maps.{value_at};
ghost use Rattle.wf_value.specs.Plain.{plain};
ghost use Rattle.wf_scope.specs.Layers.{IsInnermost, IsLive, StayInnermost, StayLive, all_stand, chain, closed, depth_in, find, fresh, holder_in, look_in, opened, put_at, put_place, rises, stands, total_of, vars_at};
ghost use Rattle.wf_scope.specs.Firsts.{class_of};
ghost use Rattle.wf_scope.specs.Spots.{HoldsWhole, IsNearest, IsSpot};
ghost use Rattle.wf_scope.specs.Lives.{live_in};
ghost use Rattle.wf_scope.specs.Views.{views};

use crate::fault::AssignFault;
use crate::firsts::class_of;
use crate::key::Key;
use crate::layers::Layers;
use crate::spot::Spot;
use crate::written::written;
use std::alloc::Global;
use wf_name::Name;
use wf_value::{OutOfMemory, Value};

/// The greatest nesting of a variable, as `Value::depth` counts.
const NESTING_LIMIT: u32 = 100;

/// No memory holds variables that come to more.
const MOST: u64 = u64::MAX - 2;

/// A layer, by its number. From it are seen this layer, the one outside it, and so on outward.
#[derive(Clone, Copy)]
pub struct Chain {
    /// The number of the layer.
    pub number: u64,
}

/// The layers of an execution, and the limit on the total of their variables.
///
/// A variable counts 2, the bytes of its name and the size of its value, as `Value::size` counts. Contracts see the layers by rising
/// number.
#[derive(Drop)]
pub struct Scopes {
    alloc: Global,
    limit: u64,
    layers: Layers,
    total: u64,
    ghost counted: { total ≡ total_of (views (live_in layers)) },
    ghost room: { total ≤ 18446744073709551613 },
    ghost within: { total ≤ limit },
    ghost rising: { rises (views (live_in layers)) ≡ true },
    ghost standing: { all_stand (views (live_in layers)) (views (live_in layers)) ≡ true },
}

impl Scopes {
    ghost use Rattle.wf_scope.specs.Changes.{Answers, assigned, bound};
    ghost use Rattle.wf_scope.specs.Places.{key_data};
    ghost use Rattle.wf_scope.specs.Store.{layers_of};

    /// No layer. All variables together may come to this limit.
    pub fn new(alloc: Global, limit: u64) -> Result<Scopes, OutOfMemory>
        ensures empty { IfOk result (λ s. layers_of s ≡ []) }
        ensures limit { IfOk result (λ s. s.limit ≡ limit) }
    {
        Ok(Scopes {
            alloc,
            limit,
            layers: Layers::new(alloc),
            total: 0,
        })
    }

    /// What all variables of all layers come to.
    pub fn total(&self) -> u64
        ensures { result ≡ total_of (layers_of self.now) }
    {
        self.total
    }

    /// The value of a variable: in the innermost of the layers that are seen which has the name; none where none has. The layer must be
    /// live.
    #[inline(always)]
    pub fn look(&self, c: Chain, name: &Name) -> Option<&Value>
        requires { IsLive c.number (layers_of self.now) }
        ensures { option_map (λ v. plain v.now) result
            ≡ look_in name.now (chain c.number (layers_of self.now)) }
    {
        self.look_from(c.number, name)
    }

    /// Opens a layer that stands inside none. Without memory all stays.
    pub fn root(&mut self) -> Result<Chain, OutOfMemory>
        ensures number { IfOk result (λ c. c.number ≡ fresh (layers_of self.old)) }
        ensures opened { OnOk result (layers_of self.new ≡ opened None 0 (layers_of self.old)) }
        ensures kept { OnErr result (layers_of self.new ≡ layers_of self.old) }
        ensures limit { self.new.limit ≡ self.old.limit }
        ensures live { IfOk result (λ c. IsLive c.number (layers_of self.new)) }
        ensures innermost { IfOk result (λ c. IsInnermost c.number (layers_of self.new)) }
        ensures stay { StayLive (layers_of self.old) (layers_of self.new) }
    {
        self.open(None, 0)
    }

    /// Opens a layer inside another one, which must be live. Without memory all stays.
    pub fn inner(&mut self, outer: Chain) -> Result<Chain, OutOfMemory>
        requires { IsLive outer.number (layers_of self.old) }
        ensures number { IfOk result (λ c. c.number ≡ fresh (layers_of self.old)) }
        ensures opened { OnOk result (layers_of self.new
            ≡ opened (Some outer.number) (suc (depth_in (find outer.number (layers_of self.old))))
            (layers_of self.old)) }
        ensures kept { OnErr result (layers_of self.new ≡ layers_of self.old) }
        ensures limit { self.new.limit ≡ self.old.limit }
        ensures live { IfOk result (λ c. IsLive c.number (layers_of self.new)) }
        ensures innermost { IfOk result (λ c. IsInnermost c.number (layers_of self.new)) }
        ensures stay { StayLive (layers_of self.old) (layers_of self.new) }
    {
        let depth = self.layers.at(self.place(outer.number)).depth;
        match depth.checked_add(1) {
            Some(depth) => self.open(Some(outer.number), depth),
            None => Err(OutOfMemory),
        }
    }

    /// Ends a layer with its variables. It must be live, and no layer may stand inside it.
    pub fn close(&mut self, c: Chain)
        requires live { IsLive c.number (layers_of self.old) }
        requires innermost { IsInnermost c.number (layers_of self.old) }
        ensures closed { layers_of self.new ≡ closed c.number (layers_of self.old) }
        ensures limit { self.new.limit ≡ self.old.limit }
    {
        let place = self.place(c.number);
        let counted = self.layers.end(place);
        self.total -= counted;
    }

    /// Makes or changes a variable of a layer, which must be live. On a fault all stays, and the value is dropped.
    ///
    /// The first of these causes that holds is told: `TooLarge` where the total would be above the limit, `TooDeep` where the value nests
    /// deeper than 100. Besides, memory may be wanting.
    #[inline(always)]
    pub fn bind(&mut self, c: Chain, name: &Name, v: Value) -> Result<(), AssignFault>
        requires { IsLive c.number (layers_of self.old) }
        ensures outcome { Answers result (layers_of self.new)
            (bound self.old.limit c.number name.now (plain v) (layers_of self.old)) }
        ensures kept { OnErr result (layers_of self.new ≡ layers_of self.old) }
        ensures limit { self.new.limit ≡ self.old.limit }
        ensures stay { StayLive (layers_of self.old) (layers_of self.new) }
        ensures apart { StayInnermost (layers_of self.old) (layers_of self.new) }
    {
        let (spot, _) = self.spot(c.number, name);
        self.bind_at(spot, name, v)
    }

    /// Assigns a value to a name, or to the places below it. A variable that is seen from the layer is changed where it stands; else it is
    /// made in the layer, which must be live. On a fault all stays, and the value is dropped.
    ///
    /// The places are entered one after another. A missing last key of a map is added. Another missing key, and any place below a variable
    /// that isn't there, is a `MissingKey`, an index outside its list a `BadIndex`, any other place a `NotAContainer`. Then the limits are
    /// tested as in `bind`, with the variable as it would be. Besides, memory may be wanting.
    #[inline(always)]
    pub fn assign(
        &mut self,
        c: Chain,
        name: &Name,
        path: &[Key],
        v: Value,
    ) -> Result<(), AssignFault>
        requires { IsLive c.number (layers_of self.old) }
        ensures outcome { Answers result (layers_of self.new)
            (assigned self.old.limit c.number name.now (map key_data path.now) (plain v)
            (layers_of self.old)) }
        ensures kept { OnErr result (layers_of self.new ≡ layers_of self.old) }
        ensures limit { self.new.limit ≡ self.old.limit }
        ensures stay { StayLive (layers_of self.old) (layers_of self.new) }
        ensures apart { StayInnermost (layers_of self.old) (layers_of self.new) }
    {
        match path {
            [] => {
                if self.renew(c.number, name, &v) {
                    return Ok(());
                }
                self.assign_alone(c, name, v)
            }
            [_, ..] => self.assign_below(c, name, path, v),
        }
    }

    /// Assigns a value to a name alone.
    #[inline(always)]
    fn assign_alone(&mut self, c: Chain, name: &Name, v: Value) -> Result<(), AssignFault>
        requires { IsLive c.number (layers_of self.old) }
        ensures outcome { Answers result (layers_of self.new)
            (assigned self.old.limit c.number name.now [] (plain v) (layers_of self.old)) }
        ensures kept { OnErr result (layers_of self.new ≡ layers_of self.old) }
        ensures limit { self.new.limit ≡ self.old.limit }
        ensures stay { StayLive (layers_of self.old) (layers_of self.new) }
        ensures apart { StayInnermost (layers_of self.old) (layers_of self.new) }
    {
        let (spot, _) = self.target(c.number, name);
        self.bind_at(spot, name, v)
    }

    /// Assigns a whole number to a name that stands for one, if the first hint on the way outward leads to it, and answers whether it did.
    /// Neither what variables come to nor their nesting changes by it. Otherwise all stays.
    #[inline(always)]
    fn renew(&mut self, number: u64, name: &Name, v: &Value) -> bool
        requires { IsLive number (layers_of self.old) }
        ensures outcome { result ≡ true
            → assigned self.old.limit number name.now [] (plain v.now) (layers_of self.old)
            ≡ Ok (layers_of self.new) }
        ensures kept { result ≡ false → layers_of self.new ≡ layers_of self.old }
        ensures limit { self.new.limit ≡ self.old.limit }
        ensures stay { StayLive (layers_of self.old) (layers_of self.new) }
        ensures apart { StayInnermost (layers_of self.old) (layers_of self.new) }
    {
        let Value::Int(n) = v else {
            return false;
        };
        let Some((place, hint)) = self.nearest(number, name) else {
            return false;
        };
        self.layers.renew(place, hint, name, *n)
    }

    /// Assigns a value to the places below a name.
    #[inline(never)]
    fn assign_below(
        &mut self,
        c: Chain,
        name: &Name,
        path: &[Key],
        v: Value,
    ) -> Result<(), AssignFault>
        requires live { IsLive c.number (layers_of self.old) }
        requires below { 0 < length path.now }
        ensures outcome { Answers result (layers_of self.new)
            (assigned self.old.limit c.number name.now (map key_data path.now) (plain v)
            (layers_of self.old)) }
        ensures kept { OnErr result (layers_of self.new ≡ layers_of self.old) }
        ensures limit { self.new.limit ≡ self.old.limit }
        ensures stay { StayLive (layers_of self.old) (layers_of self.new) }
        ensures apart { StayInnermost (layers_of self.old) (layers_of self.new) }
    {
        let (spot, old) = self.target(c.number, name);
        let Some(old) = old else {
            return Err(AssignFault::MissingKey);
        };
        match written(self.alloc, path, old, v) {
            Ok(value) => self.bind_at(spot, name, value),
            Err(fault) => Err(fault),
        }
    }

    /// Where a live layer stands: mostly at its number.
    #[inline(always)]
    fn place(&self, number: u64) -> usize
        requires { IsLive number (layers_of self.now) }
        ensures within { result < length (layers_of self.now) }
        ensures found { slice_get (layers_of self.now) result ≡ find number (layers_of self.now) }
    {
        let guess = number as usize;
        if self.layers.is_straight(guess) {
            return guess;
        }
        self.search(number)
    }

    /// Where a live layer stands, by a search among all layers.
    #[cold]
    #[inline(never)]
    fn search(&self, number: u64) -> usize
        requires { IsLive number (layers_of self.now) }
        ensures within { result < length (layers_of self.now) }
        ensures found { slice_get (layers_of self.now) result ≡ find number (layers_of self.now) }
    {
        match self
            .layers
            .live()
            .binary_search_by_key(&number, |layer| layer.number)
        {
            Ok(place) => place,
            Err(_) => unreachable!(),
        }
    }

    #[inline(always)]
    fn look_from(&self, number: u64, name: &Name) -> Option<&Value>
        requires { IsLive number (layers_of self.now) }
        ensures { option_map (λ v. plain v.now) result
            ≡ look_in name.now (chain number (layers_of self.now)) }
    {
        let class = class_of(name);
        let mut here = number;
        loop {
            let place = self.place(here);
            let layer = self.layers.at(place);
            if let Some(value) = layer.look(class, name) {
                return Some(value);
            }
            match layer.outer {
                Some(outer) => here = outer,
                None => return None,
            }
        }
    }

    /// The place of the innermost layer that has a hint for a name, of those that are seen, and the hint; none where none has one.
    #[inline(always)]
    fn nearest(&self, number: u64, name: &Name) -> Option<(usize, u8)>
        requires { IsLive number (layers_of self.now) }
        ensures { IfSome result (λ r. IsNearest r.0 name.now number (layers_of self.now)
            × (0 < r.1)) }
    {
        let class = class_of(name);
        let mut here = number;
        loop {
            let place = self.place(here);
            let layer = self.layers.at(place);
            let hint = layer.hint(class);
            if hint > 0 {
                return Some((place, hint));
            }
            match layer.outer {
                Some(outer) => here = outer,
                None => return None,
            }
        }
    }

    /// The variable of this name in a layer, and its value.
    #[inline(always)]
    fn spot(&self, number: u64, name: &Name) -> (Spot, Option<&Value>)
        requires { IsLive number (layers_of self.now) }
        ensures number { result.0.number ≡ number }
        ensures spot { IsSpot result.0 name.now (live_in self.now.layers) }
        ensures value { option_map (λ v. plain v.now) result.1
            ≡ value_at name.now (vars_at number (layers_of self.now)) }
    {
        self.spot_at(number, self.place(number), class_of(name), name)
    }

    /// The variable of this name in the layer at a place, and its value.
    #[inline(always)]
    fn spot_at(
        &self,
        number: u64,
        layer: usize,
        class: usize,
        name: &Name,
    ) -> (Spot, Option<&Value>)
        requires within { layer < length (layers_of self.now) }
        requires found { slice_get (layers_of self.now) layer ≡ find number (layers_of self.now) }
        requires class { class ≡ class_of name.now }
        requires below { class < 32 }
        ensures number { result.0.number ≡ number }
        ensures spot { IsSpot result.0 name.now (live_in self.now.layers) }
        ensures value { option_map (λ v. plain v.now) result.1
            ≡ value_at name.now (vars_at number (layers_of self.now)) }
    {
        let here = self.layers.at(layer);
        let (pair, value) = here.find(here.hint(class), name);
        let counted = match value {
            Some(value) => size_of_variable(name.as_str(), value),
            None => 0,
        };
        let spot = Spot {
            number,
            layer,
            pair,
            class,
            counted,
        };
        (spot, value)
    }

    /// The variable of this name in the innermost layer that has it, of those that are seen, and its value; where none has it, its spot in
    /// the layer itself.
    #[inline(always)]
    fn target(&self, number: u64, name: &Name) -> (Spot, Option<&Value>)
        requires { IsLive number (layers_of self.now) }
        ensures holder { option_map (λ v. result.0.number) result.1
            ≡ holder_in name.now (chain number (layers_of self.now)) }
        ensures absent { IfNone result.1 (result.0.number ≡ number) }
        ensures live { IsLive result.0.number (layers_of self.now) }
        ensures spot { IsSpot result.0 name.now (live_in self.now.layers) }
        ensures value { option_map (λ v. plain v.now) result.1
            ≡ value_at name.now (vars_at result.0.number (layers_of self.now)) }
    {
        let class = class_of(name);
        let mut home = None;
        let mut here = number;
        loop {
            let place = self.place(here);
            let layer = self.layers.at(place);
            if layer.hint(class) > 0 {
                let (spot, value) = self.spot_at(here, place, class, name);
                if let Some(value) = value {
                    return (spot, Some(value));
                }
                if here == number {
                    home = Some(spot);
                }
            }
            match layer.outer {
                Some(outer) => here = outer,
                None => break,
            }
        }
        match home {
            Some(spot) => (spot, None),
            None => {
                let (spot, _) = self.spot(number, name);
                (spot, None)
            }
        }
    }

    /// Makes or changes a variable.
    #[inline(always)]
    fn bind_at(&mut self, spot: Spot, name: &Name, v: Value) -> Result<(), AssignFault>
        requires live { IsLive spot.number (layers_of self.old) }
        requires spot { IsSpot spot name.now (live_in self.old.layers) }
        ensures outcome { Answers result (layers_of self.new)
            (bound self.old.limit spot.number name.now (plain v) (layers_of self.old)) }
        ensures kept { OnErr result (layers_of self.new ≡ layers_of self.old) }
        ensures limit { self.new.limit ≡ self.old.limit }
        ensures stay { StayLive (layers_of self.old) (layers_of self.new) }
        ensures apart { StayInnermost (layers_of self.old) (layers_of self.new) }
    {
        let counted = size_of_variable(name.as_str(), &v);
        let rest = self.total - spot.counted;
        let total = rest.saturating_add(counted);
        if total > self.limit {
            return Err(AssignFault::TooLarge);
        }
        if total > MOST {
            return Err(AssignFault::OutOfMemory);
        }
        if v.depth() > NESTING_LIMIT {
            return Err(AssignFault::TooDeep);
        }
        match self.layers.put(spot, name, v, counted) {
            Ok(()) => {
                self.total = total;
                Ok(())
            }
            Err(_) => Err(AssignFault::OutOfMemory),
        }
    }

    /// A number above those of all live layers.
    #[tactic(auto, using(crate::proofs::Viewed::view_last))]
    fn fresh(&self) -> Result<u64, OutOfMemory>
        ensures { IfOk result (λ n. n ≡ fresh (layers_of self.now)) }
    {
        let Some(layer) = self.layers.live().last() else {
            return Ok(0);
        };
        match layer.number.checked_add(1) {
            Some(number) => Ok(number),
            None => Err(OutOfMemory),
        }
    }

    /// One more layer.
    fn open(&mut self, outer: Option<u64>, depth: u64) -> Result<Chain, OutOfMemory>
        requires { stands outer depth (layers_of self.old) ≡ true }
        ensures number { IfOk result (λ c. c.number ≡ fresh (layers_of self.old)) }
        ensures opened { OnOk result (layers_of self.new
            ≡ opened outer depth (layers_of self.old)) }
        ensures kept { OnErr result (layers_of self.new ≡ layers_of self.old) }
        ensures limit { self.new.limit ≡ self.old.limit }
        ensures live { IfOk result (λ c. IsLive c.number (layers_of self.new)) }
        ensures innermost { IfOk result (λ c. IsInnermost c.number (layers_of self.new)) }
        ensures stay { StayLive (layers_of self.old) (layers_of self.new) }
    {
        let number = self.fresh()?;
        self.layers.open(self.alloc, number, outer, depth)?;
        Ok(Chain { number })
    }
}

/// What a variable counts: 2, the bytes of its name and the size of its value.
#[inline(always)]
fn size_of_variable(name: &str, value: &Value) -> u64
    ensures { result ≡ min (2 + length name.now + size (plain value.now)) 18446744073709551615 }
{
    value
        .size()
        .saturating_add(2)
        .saturating_add(name.len() as u64)
}
