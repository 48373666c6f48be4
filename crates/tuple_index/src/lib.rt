// The index of the tuple store: a table of slots in which the tuple with the bytes that are looked for is found in a
// few steps, or is known not to be there. It covers tuples at the front of the store; the walk goes over the others.
// Table and store are two lent parts: a struct of both, one to write, would ask a clause more of each contract.
#![tactic(auto)]

ghost use Rattle.std.specs.Prelude.{◌≡◌, ◌+◌, ◌-◌, ◌*◌, ◌≤◌, [], ◌∷◌, length, drop, slice_index, slice_set};
ghost use Rattle.lists.specs.Answers.{given};
ghost use Rattle.lists.specs.Lists.{part, put};
ghost use Rattle.hashes.specs.Hashes.{hash_of};
ghost use Rattle.session_spec.specs.Definitions.{frame};
ghost use Rattle.output_stores.specs.Stores.{standing};
ghost use Rattle.tuple_search.specs.Search.{place_with};
ghost use Rattle.tuple_index.specs.Index.{slots_of, spare, start_of, is_wanted, stops, in_row, number_in, free_in, entered_at, found_behind};
ghost use Rattle.tuple_index.specs.Covers.{tail_from, passing, end_of, next_place, head_in, slots_end, slots_for, is_crowded, Covers, Advances, Enters, Keeps, Makes, Empties};

// What a table of which something is believed says before its slots: one more than how many bytes of the store it
// covers, how many tuples these are, and how many slots were taken.
#[derive(Clone, Copy)]
pub struct Head {
    pub next: u32,
    pub count: u32,
    pub entries: u32,
}

impl Head {
    // How many bytes of the store the table covers.
    pub fn covered(self) -> usize
        ensures { result ≡ self.next - 1 }
    {
        (self.next as usize).saturating_sub(1)
    }
}

// One more than the place where its record begins, 0 where it is free (the table is lent, and its words of 0 are free
// slots); a number that the record has; the number of its text.
// Slots are three words each of lent memory. No plainer by Slot::of and slot.words(): stop_at alone reads all three
// words and put_slot alone writes them; number_at looks at two, and enter_slot asks number_at.
#[derive(Clone, Copy)]
pub struct Slot {
    pub place: u32,
    pub number: u32,
    pub hash: u32,
}

// A text that is looked for, with its number; the number that its slot must have, if not any; and where it begins in a
// record, behind the first byte and `skip` more: 4 to its scope, 8 to its field count and texts (and tail_from reads 3
// to its constraint). These are TU_SCOPE, TU_COUNT and TU_CONSTRAINT of output_stores less one, as places count from 1:
// written so they would be no plainer.
#[derive(Clone, Copy)]
pub struct Sought<'a> {
    pub want: Option<u32>,
    pub skip: u8,
    pub hash: u32,
    pub key: &'a [u8],
}

impl<'a> Sought<'a> {
    // A text with its number.
    pub fn of(want: Option<u32>, skip: u8, key: &'a [u8]) -> Sought<'a>
        ensures { result ≡ record { want = want; skip = skip; hash = hash_of key.now; key = key.entry } }
    {
        let hash = hashes::hash(key);
        Sought {
            want,
            skip,
            hash,
            key,
        }
    }
}

// ---- a tuple looked for

// The number of the first tuple whose scope and texts are those of this tail.
pub fn find_indexed(used: &[u8], table: &[u32], tail: &[u8]) -> Option<usize>
    ensures { Covers table.now used.now → given result ≡ place_with tail.now (standing frame used.now) }
{
    let Some(head) = read_head(table) else {
        return tuple_search::find_tuple(used, tail);
    };
    let sought = Sought::of(None, 4, tail);
    match find_slot(used, in_use(table), &sought) {
        Some(number) => Some(number as usize),
        None => find_behind(used, head.covered(), head.count, tail),
    }
}

// The same among the tuples from a place on, which so many stand before.
fn find_behind(used: &[u8], from: usize, count: u32, tail: &[u8]) -> Option<usize>
    ensures { given result ≡ found_behind count tail.now (standing frame (drop from used.now)) }
{
    let found = tuple_search::find_tuple(used.get(from..).unwrap_or(&[]), tail)?;
    Some(count as usize + found)
}

// ---- the search along the slots, which serves any index of texts

// The number in the slot of a text. None where the text stands in none.
pub fn find_slot(used: &[u8], slots: &[u32], sought: &Sought<'_>) -> Option<u32>
    ensures { given result ≡ number_in (drop (end_of used.now sought.now slots.now) (slots_of slots.now)) }
{
    let at = seek_slot(used, slots, sought)?;
    number_at(slots, at)
}

// The slot where the search for a text ends: the first one, from its own on, that is free or that passes. None where
// there is none.
pub fn seek_slot(used: &[u8], slots: &[u32], sought: &Sought<'_>) -> Option<usize>
    ensures { given result ≡ in_row (length (slots_of slots.now)) (end_of used.now sought.now slots.now) }
{
    let start = first_slot(slots.len() / 3, sought.hash);
    let passed = stop_at(used, &slots[3 * start..], sought)?;
    Some(start + passed)
}

// How many slots stand before the first that is free or passes. None where there is none.
fn stop_at(used: &[u8], slots: &[u32], sought: &Sought<'_>) -> Option<usize>
    ensures { given result ≡ in_row (length (slots_of slots.now)) (stops (passing used.now sought.now) (slots_of slots.now)) }
{
    slots.chunks_exact(3).position(|words| {
        let slot = Slot {
            place: words[0],
            number: words[1],
            hash: words[2],
        };
        slot.place == 0 || passes(used, slot, sought)
    })
}

// Whether a slot is that of the text. Where the numbers differ nothing is compared.
fn passes(used: &[u8], slot: Slot, sought: &Sought<'_>) -> bool
    ensures { result ≡ passing used.now sought.now slot }
{
    slot.hash == sought.hash
        && is_wanted(sought.want, slot.number)
        && texts::same(tail_from(used, sought.skip, slot.place), sought.key)
}

// Whether a slot's number is the one that is wanted, or any is.
fn is_wanted(want: Option<u32>, number: u32) -> bool
    ensures { result ≡ is_wanted (given want) number }
{
    number == want.unwrap_or(number)
}

// The bytes of the record that begins one before the place, behind its first and `skip` more, as far as they are
// there.
pub fn tail_from<'a>(used: &'a [u8], skip: u8, place: u32) -> &'a [u8]
    ensures { result.now ≡ tail_from used.now skip place }
{
    let past = usize::from(skip);
    let whole = usize::from(numbers::two_at(used, place as usize + 1)) + 3;
    texts::clipped(used, place as usize + past, whole.saturating_sub(past))
}

// The first slot of a number, of so many: its share of those that are not spare.
fn first_slot(slots: usize, hash: u32) -> usize
    ensures start { result ≡ start_of slots hash }
    ensures within { result ≤ slots }
{
    let served = slots - spare_of(slots);
    let most = served.min(4294967295) as u64;
    (u64::from(hash) * most / 4294967296) as usize
}

// The slots at the end, into which the last ones' are pushed.
fn spare_of(slots: usize) -> usize
    ensures { result ≡ spare slots }
{
    (slots / 4).min(64)
}

// ---- one slot

// The number in a slot. None where it is free or not there.
pub fn number_at(slots: &[u32], at: usize) -> Option<u32>
    ensures { given result ≡ number_in (drop at (slots_of slots.now)) }
{
    if slots.len() / 3 <= at || slots[3 * at] == 0 {
        return None;
    }
    Some(slots[3 * at + 1])
}

// Writes a slot. One that is not there is not written.
// It cannot fail. The place is compared before it is tripled, since the product may pass the last number.
pub fn put_slot(slots: &mut [u32], at: usize, slot: Slot)
    ensures { slots.new ≡ put slots.old (3 * at) (slot.place ∷ slot.number ∷ slot.hash ∷ []) }
{
    if at < slots.len() / 3 {
        slots[3 * at..3 * at + 3].copy_from_slice(&[slot.place, slot.number, slot.hash]);
    }
}

// Writes a slot where the search for its text ends, and says whether that one was free: one that passes stays. None,
// and nothing is written, where there is none.
pub fn enter_slot(slots: &mut [u32], used: &[u8], slot: Slot, sought: &Sought<'_>) -> Option<bool>
    ensures says { given result ≡ free_in (drop (end_of used.now sought.now slots.old) (slots_of slots.old)) }
    ensures leaves { slots.new ≡ entered_at (end_of used.now sought.now slots.old) slot slots.old }
{
    let at = seek_slot(used, slots, sought)?;
    if number_at(slots, at).is_some() {
        return Some(false);
    }
    put_slot(slots, at, slot);
    Some(true)
}

// ---- tuples entered

// Enters the tuples that the table does not cover yet, one after the other. One that finds no slot is the first that
// is not covered.
pub fn enter_new(table: &mut [u32], used: &[u8])
    ensures { Keeps table.old used.now table.new }
{
    let Some(head) = read_head(table) else {
        return;
    };
    let end = slots_end(table);
    let after = enter_all(&mut table[4..end], used, head);
    write_head(table, after);
}

// The same over the slots in use.
fn enter_all(slots: &mut [u32], used: &[u8], head: Head) -> Head
    ensures { Advances head.next head.count slots.old used.now result.next result.count slots.new }
{
    let mut h = head;
    while let Some(after) = enter_next(slots, used, h) {
        h = after;
    }
    h
}

// Enters the first tuple that is not covered; where its tail stands in a slot already, it is covered without one of its
// own. Where there is none, or no slot, all stays as it was.
fn enter_next(slots: &mut [u32], used: &[u8], h: Head) -> Option<Head>
    ensures { Enters h.next h.count slots.old used.now result slots.new }
{
    let next = next_place(used, h.next)?;
    let count = h.count.checked_add(1)?;
    let tail = tail_from(used, 4, h.next);
    let sought = Sought::of(None, 4, tail);
    let slot = Slot {
        place: h.next,
        number: count,
        hash: sought.hash,
    };
    let new = enter_slot(slots, used, slot, &sought)?;
    // only whether the table is crowded is read off it
    let entries = h.entries.wrapping_add(u32::from(new));
    Some(Head {
        next,
        count,
        entries,
    })
}

// The place of the record behind the one at a place, both counted from 1. None where no whole one stands there, or
// where four bytes do not hold it.
pub fn next_place(used: &[u8], place: u32) -> Option<u32>
    ensures { given result ≡ next_place used.now place }
{
    let from = place.checked_sub(1)?;
    let (front, _) = frames::split(used.get(from as usize..)?)?;
    u32::try_from(place as usize + front.len()).ok()
}

// ---- a table made

// Makes the index anew, with slots for four times the tuples or as many as there is room for.
pub fn build(table: &mut [u32], used: &[u8])
    ensures { Makes table.old used.now table.new }
{
    empty_for(table, used);
    enter_new(table, used);
}

// Enters the tuples that are not covered, and makes the index anew where it is crowded.
pub fn grown(table: &mut [u32], used: &[u8])
    ensures { Keeps table.old used.now table.new }
{
    enter_new(table, used);
    if is_crowded(table) {
        build(table, used);
    }
}

// From here on nothing is believed of the table.
pub fn close(table: &mut [u32])
    ensures { table.new ≡ slice_set table.old 0 0 }
{
    if let Some(first) = table.first_mut() {
        *first = 0;
    }
}

// Frees the slots of a table, as many as the tuples of the store ask for.
pub fn empty_for(table: &mut [u32], used: &[u8])
    ensures { Empties table.old table.new }
{
    let slots = slots_for(tuple_search::count(used), table.len());
    make_empty(table, slots);
}

// A table of so many free slots, which covers nothing yet.
// The one test of length serves both writes, so that get_mut for each would be no plainer; Head lacks the fourth word.
fn make_empty(table: &mut [u32], slots: u32)
    ensures { Empties table.old table.new }
{
    if table.len() < 4 {
        return;
    }
    table[..4].copy_from_slice(&[1, 0, 0, slots]);
    let end = slots_end(table);
    table[4..end].fill(0);
}

// How many slots a table of so many words gets.
// They are at most 4000000256, so the conversion loses nothing; try_from would add an error that never is.
fn slots_for(records: usize, words: usize) -> u32
    ensures { result ≡ slots_for records words }
{
    let room = words.saturating_sub(4) / 3;
    let wanted = 4 * records.min(1000000000) + 256;
    wanted.min(room) as u32
}

// Whether more than half of the slots are taken, and there is room for more.
fn is_crowded(table: &[u32]) -> bool
    ensures { result ≡ is_crowded table.now }
{
    let Some(head) = read_head(table) else {
        return false;
    };
    let entries = head.entries as usize;
    let slots = table[3] as usize;
    slots < 2 * entries && 3 * slots + 7 <= table.len()
}

// ---- the head, and the slots in use

// The head of a table. None where nothing is believed of it: of one of under four words, or whose first is 0.
pub fn read_head(table: &[u32]) -> Option<Head>
    ensures { given result ≡ head_in table.now }
{
    match table {
        [next, count, entries, _, ..] if *next != 0 => Some(Head {
            next: *next,
            count: *count,
            entries: *entries,
        }),
        _ => None,
    }
}

// Writes it over the first words of a table; one of under three words stays as it was. It could not fail and still
// can't: no Result.
pub fn write_head(table: &mut [u32], head: Head)
    ensures { table.new ≡ put table.old 0 (head.next ∷ head.count ∷ head.entries ∷ []) }
{
    if let Some(words) = table.first_chunk_mut::<3>() {
        *words = [head.next, head.count, head.entries];
    }
}

// The words of the slots in use.
pub fn in_use<'a>(table: &'a [u32]) -> &'a [u32]
    ensures { result.now ≡ part table.now 4 (3 * slice_index table.now 3) }
{
    table.get(4..slots_end(table)).unwrap_or(&[])
}

// The place behind them.
pub fn slots_end(table: &[u32]) -> usize
    ensures { result ≡ slots_end table.now }
{
    match table.get(3) {
        Some(slots) => table.len().min(4 + 3 * *slots as usize),
        None => table.len(),
    }
}

// ---- the end of the code
