// Texts of a fixed form.
ghost use Rattle.std.specs.Prelude.{◌≡◌, ◌+◌, ◌*◌, ◌≤◌};
ghost use Rattle.wf_lib_time.specs.Moments.{HasTwoDigits, fits};
ghost use Rattle.wf_value.specs.LibTime.{has_form, number_at};

/// Whether the text has the form, in which each `d` stands for a digit.
pub(crate) fn has_form(form: &[u8], text: &[u8]) -> bool
    ensures { result ≡ has_form form.now text.now }
{
    let mut form = form;
    let mut text = text;
    'bytes: loop {
        let [f, behind @ ..] = form else {
            return text.is_empty();
        };
        let [b, after @ ..] = text else {
            return false;
        };
        if !fits(*f, *b) {
            return false;
        }
        form = behind;
        text = after;
    }
}

/// Whether a byte may stand at that place of a form.
fn fits(f: u8, b: u8) -> bool
    ensures { result ≡ fits f b }
{
    if f == b'd' {
        b.is_ascii_digit()
    } else {
        f == b
    }
}

/// The number of the two digits at a place.
pub(crate) fn two_digits(text: &[u8], at: usize) -> u8
    requires { HasTwoDigits text.now at }
    ensures value { result ≡ number_at at (at + 2) text.now }
    ensures small { result ≤ 99 }
{
    (text[at] - b'0') * 10 + (text[at + 1] - b'0')
}
