// The layers of a store.
ghost use Rattle.std.specs.Prelude.{true, ◌&&◌, nat_eq, ◌≡◌, ◌≤◌, ◌<◌, ◌+◌, ◌-◌, [], ◌∷◌, ◌++◌, drop, length, OnOk, Some, is_ok, if◌then◌else◌, slice_get, slice_index_or};
ghost use Rattle.std.specs.List.{remove};
ghost use Rattle.wf_value.specs.Data.{integer, pairs_of, pairs_size, size};
ghost use Rattle.wf_value.specs.Plain.{plain};
ghost use Rattle.wf_scope.specs.Layers.{Layer as SeenLayer, new_layer, put_place, total_of};
ghost use Rattle.wf_scope.specs.Spots.{HoldsWhole, IsSpot};
ghost use Rattle.wf_scope.specs.Views.{are_straight, counted_in, views};

use crate::layer::Layer;
use crate::spot::Spot;
use std::alloc::Global;
use wf_name::Name;
use wf_value::{OutOfMemory, Value};

/// A layer that ends is kept for the next one if it has no more names.
const KEPT: usize = 16;

/// The live layers, by rising number, and behind them layers that have ended. Those bind nothing.
#[derive(Drop)]
pub(crate) struct Layers {
    all: Vec<Layer>,
    /// So many are live.
    count: usize,
    /// So many of them, from the first on, stand at their numbers.
    straight: usize,
    ghost within: { count ≤ length all.items },
    ghost straight_within: { straight ≤ count },
    ghost numbered: { are_straight straight 0 all.items ≡ true },
    ghost spared: { counted_in (drop count all.items) ≡ 0 },
}

impl Layers {
    ghost use Rattle.wf_scope.specs.Lives.{live_in};

    /// No layer.
    pub(crate) fn new(alloc: Global) -> Layers
        ensures { live_in result ≡ [] }
    {
        Layers {
            all: Vec::new(alloc),
            count: 0,
            straight: 0,
        }
    }

    /// Whether a layer is known to stand at this place, which is its number.
    #[inline(always)]
    pub(crate) fn is_straight(&self, place: usize) -> bool
        ensures within { result ≡ true → place < length (views (live_in self.now)) }
        ensures number { result ≡ true → (l : SeenLayer)
            → slice_get (views (live_in self.now)) place ≡ Some l → l.number ≡ place }
    {
        place < self.straight
    }

    /// The live layers.
    #[inline(always)]
    pub(crate) fn live(&self) -> &[Layer]
        ensures { result.now ≡ live_in self.now }
    {
        &self.all[..self.count]
    }

    /// The live layer at a place.
    #[inline(always)]
    pub(crate) fn at(&self, place: usize) -> &Layer
        requires { place < length (views (live_in self.now)) }
        ensures { result.now ≡ slice_index_or (live_in self.now) place result.now }
    {
        &self.all[place]
    }

    /// Opens a layer without variables. Without memory all stays.
    #[inline(always)]
    pub(crate) fn open(
        &mut self,
        alloc: Global,
        number: u64,
        outer: Option<u64>,
        depth: u64,
    ) -> Result<(), OutOfMemory>
        ensures { views (live_in self.new) ≡ (if is_ok result
            then views (live_in self.old) ++ new_layer number outer depth ∷ []
            else views (live_in self.old)) }
    {
        self.spare(alloc)?;
        self.all[self.count].stands(number, outer, depth);
        self.straight = grown(self.straight, self.count, number);
        self.count += 1;
        Ok(())
    }

    /// Sees to it that a layer that has ended stands behind the live ones. Without memory all stays.
    #[inline(always)]
    fn spare(&mut self, alloc: Global) -> Result<(), OutOfMemory>
        ensures live { live_in self.new ≡ live_in self.old }
        ensures one { OnOk result (self.new.count < length self.new.all.items) }
    {
        if self.count < self.all.len() {
            return Ok(());
        }
        self.more(alloc)
    }

    /// Makes a layer that stands behind all, as one that has ended. Without memory all stays.
    #[cold]
    #[inline(never)]
    fn more(&mut self, alloc: Global) -> Result<(), OutOfMemory>
        ensures live { live_in self.new ≡ live_in self.old }
        ensures one { OnOk result (self.new.count < length self.new.all.items) }
    {
        self.all.push(Layer::fresh(alloc)?)?;
        Ok(())
    }

    /// Ends the live layer at a place, and tells what it counted. It is kept for the next one if it stands last and has few names.
    #[inline(always)]
    pub(crate) fn end(&mut self, place: usize) -> u64
        requires { place < length (views (live_in self.old)) }
        ensures counted { (l : SeenLayer) → slice_get (views (live_in self.old)) place ≡ Some l
            → result ≡ pairs_size (pairs_of l.vars) }
        ensures rest { live_in self.new ≡ remove (live_in self.old) place }
    {
        if place + 1 < self.count || self.all[place].vars.len() > KEPT {
            return self.take(place);
        }
        let layer = &mut self.all[place];
        let counted = layer.counted;
        layer.clear();
        self.count = place;
        self.straight = self.straight.min(place);
        counted
    }

    /// Takes the live layer at a place out, and tells what it counted.
    #[cold]
    #[inline(never)]
    fn take(&mut self, place: usize) -> u64
        requires { place < length (views (live_in self.old)) }
        ensures counted { (l : SeenLayer) → slice_get (views (live_in self.old)) place ≡ Some l
            → result ≡ pairs_size (pairs_of l.vars) }
        ensures rest { live_in self.new ≡ remove (live_in self.old) place }
    {
        let layer = self.all.remove(place);
        self.count -= 1;
        self.straight = self.straight.min(place);
        layer.counted
    }

    /// Makes or changes a variable at its spot, where it counts so much. Without memory all stays.
    #[inline(always)]
    pub(crate) fn put(
        &mut self,
        spot: Spot,
        name: &Name,
        value: Value,
        counted: u64,
    ) -> Result<(), OutOfMemory>
        requires spot { IsSpot spot name.now (live_in self.old) }
        requires counted { counted ≡ 2 + length name.now + size (plain value) }
        requires room { total_of (views (live_in self.old)) - spot.counted + counted
            ≤ 18446744073709551615 }
        ensures { views (live_in self.new) ≡ (if is_ok result
            then put_place spot.layer name.now (plain value) (views (live_in self.old))
            else views (live_in self.old)) }
    {
        let layer = &mut self.all[spot.layer];
        layer.put(spot.pair, spot.class, name, value, spot.counted, counted)
    }

    /// Writes a whole number over another one in the layer at a place, if this name stands there for one where the hint tells, and answers
    /// whether it did. Otherwise all stays.
    #[inline(always)]
    pub(crate) fn renew(&mut self, layer: usize, hint: u8, name: &Name, n: i64) -> bool
        requires within { layer < length (views (live_in self.old)) }
        requires hint { 0 < hint }
        ensures after { views (live_in self.new) ≡ (if result
            then put_place layer name.now (integer n) (views (live_in self.old))
            else views (live_in self.old)) }
        ensures whole { result ≡ true
            → HoldsWhole layer name.now (views (live_in self.old)) }
    {
        self.all[layer].renew(hint, name, n)
    }
}

/// How many stand at their numbers once there is one more live layer.
#[inline(always)]
fn grown(straight: usize, count: usize, number: u64) -> usize
    requires { straight < 18446744073709551615 }
    ensures { result ≡ (if nat_eq straight count && nat_eq number count
        then straight + 1 else straight) }
{
    if straight == count && number == count as u64 {
        straight + 1
    } else {
        straight
    }
}
