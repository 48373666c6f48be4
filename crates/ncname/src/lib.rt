// NCName: a name without a colon, tested on the bytes of a text.
#![tactic(auto)]

ghost use Rattle.std.specs.Prelude.{◌≡◌, ◌&&◌};
ghost use Rattle.utf8.specs.Utf8.{utf8, decode};
ghost use Rattle.ncname.specs.NCName.{nc_name};

use code_points::Points;

// Whether a text is an NCName. Bytes that are no UTF-8 are none.
pub fn is_ncname(s: &[u8]) -> bool
    ensures { result ≡ (utf8 s.now && nc_name (decode s.now)) }
{
    if !utf8_check::is_utf8(s) {
        return false;
    }
    let mut points = Points(s);
    let Some(first) = points.next() else {
        return false;
    };
    characters::name_start(first) && points.all(|c| characters::name_char(c))
}
