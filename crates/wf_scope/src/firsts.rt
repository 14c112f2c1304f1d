// Which first bytes the names of a layer have.
ghost use Rattle.std.specs.Prelude.{ℕ, ◌≡◌, ◌<◌, map, slice_index};
ghost use Rattle.wf_scope.specs.Firsts.{class_of, shifted};

use wf_name::Name;

/// The greatest place that a hint tells.
const FARTHEST: usize = 254;

/// A hint for each class of names: 0 where the layer has no such name, and else one more than the place of the one that was put last, or 255
/// where that is farther.
#[derive(Clone, Copy)]
pub(crate) struct Firsts {
    pub(crate) hints: [u8; 32],
}

impl Firsts {
    /// Those of a layer without names.
    pub(crate) fn none() -> Firsts {
        Firsts { hints: [0; 32] }
    }

    /// A name of this class stands at this place, or is put there.
    #[inline(always)]
    pub(crate) fn put(&mut self, class: usize, place: Result<usize, usize>)
        requires { class < 32 }
        ensures there { 0 < slice_index self.new.hints class }
        ensures others { (i : ℕ) → 0 < slice_index self.old.hints i
            → 0 < slice_index self.new.hints i }
    {
        match place {
            Ok(place) => self.tell(class, place),
            Err(place) => {
                self.shift(place.min(FARTHEST) as u8);
                self.tell(class, place);
            }
        }
    }

    /// Names of this class are looked for at this place first.
    #[inline(always)]
    fn tell(&mut self, class: usize, place: usize)
        requires { class < 32 }
        ensures there { 0 < slice_index self.new.hints class }
        ensures others { (i : ℕ) → 0 < slice_index self.old.hints i
            → 0 < slice_index self.new.hints i }
    {
        self.hints[class] = (place.min(FARTHEST) + 1) as u8;
    }

    /// A name more is put at this place: those behind it stand one place farther.
    #[inline(never)]
    fn shift(&mut self, place: u8)
        ensures { self.new.hints ≡ map (shifted place) self.old.hints }
    {
        let mut i = 0;
        while i < 32 {
            self.hints[i] = shifted(self.hints[i], place);
            i += 1;
        }
    }
}

/// A hint behind an insertion at a place.
#[inline(always)]
fn shifted(hint: u8, place: u8) -> u8
    ensures { result ≡ shifted place hint }
{
    if place < hint && hint < u8::MAX {
        hint + 1
    } else {
        hint
    }
}

/// The class of a name.
#[inline(always)]
pub(crate) fn class_of(name: &Name) -> usize
    ensures class { result ≡ class_of name.now }
    ensures within { result < 32 }
{
    (name.first() % 32) as usize
}
