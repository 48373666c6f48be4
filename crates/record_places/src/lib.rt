// A record by places in its bytes: the types that the record walk answers with, and where a text stands.
#![tactic(auto)]

ghost use Rattle.std.specs.Prelude.{◌≡◌};
ghost use Rattle.record_places.specs.Places.{text_place};

// A text, or bytes, within the record.
#[derive(Clone, Copy, Debug, Default, PartialEq, Eq)]
pub struct Place {
    pub start: usize,
    pub size: usize,
}

// A text with its length before it, and the place behind it. That place is past the end where the text is not whole.
// No Option, which is no plainer: an ID's parts are told also where a later one is not whole, each with its own place.
// What ends at a text that is not whole goes by `text_place`.
#[derive(Clone, Copy)]
pub struct TextAt {
    pub text: Place,
    pub next: usize,
}

// ID. The refer text is empty where none follows the refer byte. The fields are so many texts from a place on.
// The flag is the record's own byte, whatever it is: the C interface hands it out, so no Option of the refer stands
// here. Nor are `kind`, `target` of NS and `simple` of EE enums: each is the record's own byte, handed out to C, and
// stands here before it is judged, since the texts are judged first.
// `first` and `count` are no struct of the two, here and in `Es`: the C interface hands them out one by one.
#[derive(Clone, Copy)]
pub struct Id {
    pub kind: u8,
    pub name: Place,
    pub flag: u8,
    pub refer: Place,
    pub selector: Place,
    pub first: usize,
    pub count: usize,
}

// NS.
#[derive(Clone, Copy)]
pub struct Ns {
    pub target: u8,
    pub prefix: Place,
    pub uri: Place,
}

// ES. The constraint numbers are a byte each, and the attributes so many from a place on.
#[derive(Clone, Copy)]
pub struct Es {
    pub space: Place,
    pub name: Place,
    pub numbers: Place,
    pub first: usize,
    pub count: usize,
}

// EE.
#[derive(Clone, Copy)]
pub struct Ee {
    pub simple: u8,
    pub key: Place,
}

// Why a record is refused because of the input, in the order of the tests.
#[derive(Clone, Copy, Debug, PartialEq, Eq)]
pub enum Refusal {
    UnknownMark,
    TooLong,
    Misframed,
    NotUtf8,
    BadByte,
    OverLimit,
}

// A record by its places.
#[derive(Clone, Copy)]
pub enum Record {
    Id(Id),
    Ns(Ns),
    Es(Es),
    Ee(Ee),
    Fi,
}

// The marks of the five records.
#[derive(Clone, Copy, Debug, PartialEq, Eq)]
pub enum Mark {
    Id,
    Ns,
    Es,
    Ee,
    Fi,
}

// ---- a text in bytes

// Where the text at a place stands: two bytes say its length. Nowhere where not all of its bytes are there.
pub fn text_place(s: &[u8], at: usize) -> Option<Place>
    ensures { result ≡ text_place s.now at }
{
    let (stated, behind) = s.get(at..)?.split_first_chunk::<2>()?;
    let size = usize::from(u16::from_le_bytes(*stated));
    if behind.len() < size {
        return None;
    }
    let start = at + 2;
    Some(Place { start, size })
}

// ---- the end of the code
