// Print jobs under one memory allowance, which is 34 lent numbers: set-up, what stands against a call and how many
// bytes are admitted, what is spent, closing; and the dispatcher.
#![tactic(auto)]

ghost use Rattle.std.specs.Prelude.{◌≡◌, ◌&&◌, ◌+◌, ◌*◌, ◌≤◌, ◌<◌, get_or, drop, set};
ghost use Rattle.std.proofs.Math.Option.{some};
ghost use Rattle.allowance.specs.Allowance.{held_by, cap_no_smaller, use_fits, fresh_allowance, spend, job_standing};
ghost use Rattle.allowance.specs.Numbers.{job_in, jobs_from, allowance_in};
ghost use Rattle.allowance.specs.Dispatcher.{waiting_from, next_job, waiting_in};
ghost use Rattle.print_jobs.specs.Answers.{job_of, rest_in, left_over, most_by, admission_of, room_at, spent_in, started_at, named_in, refusal_number, SetsUp, Closes};

// A job: its guarantee, its cap, the bytes of its TUs, and 1 while it is open.
// The mark stays a number: lent memory may hold any, and one past 1 does not fit.
#[derive(Clone, Copy)]
pub struct JobNow {
    pub guarantee: u64,
    pub cap: u64,
    pub used: u64,
    pub mark: u64,
}

// Why a call for a job, or the set-up of all, is refused.
#[derive(Clone, Copy)]
pub enum JobRefusal {
    // no such job was set up; of a set-up, that more than 8 are wanted or that guarantees, caps or T break the
    // conditions
    Unknown = 26,
    // the state does not fit; of a set-up, that there are not two numbers for each job
    Unfit = 10,
}

// What a call for a job is told that is not refused: whether the job is open, and how many bytes are admitted.
// `is_open` is no enum: a job that is not open is told its bytes, too.
#[derive(Clone, Copy)]
pub struct Admitted {
    pub is_open: bool,
    pub most: u64,
}

impl JobRefusal {
    // The document's number. No `From`, which would be no plainer: at a call the name says which number it is.
    pub fn number(self) -> u32
        ensures { result ≡ refusal_number self }
    {
        self as u32
    }
}

// ---- the numbers
// An array of 34 numbers, and no list of jobs: the caller lends it, and its size is fixed.
// usize has 64 bits too, so `as` loses nothing here and below; try_from would add an error that never is.

// The number at a place; 0 past the end.
// Beside `numbers::byte_at`: each is one call of the library, and one function for both types would be no shorter.
fn lent_number(ns: &[u64], place: usize) -> u64
    ensures { result ≡ get_or ns.now place 0 }
{
    ns.get(place).copied().unwrap_or(0)
}

// The job at the place with this number. By its place, and not from pieces of four numbers, since a lent list may be
// shorter than its jobs: a number past its end is 0, and a piece would be missing.
// That the place is below 8 stands here, at `spend_at` and at `start_at`: the callers have just tested it, and a type
// of such places, which four of them would make, would be longer than the three clauses.
fn job_at(a: &[u64], i: usize) -> JobNow
    requires { i < 8 }
    ensures { job_of result ≡ job_in (drop (2 + 4 * i) a.now) }
{
    let first = 2 + 4 * i;
    JobNow {
        guarantee: lent_number(a, first),
        cap: lent_number(a, first + 1),
        used: lent_number(a, first + 2),
        mark: lent_number(a, first + 3),
    }
}

// Of an open job the larger of bytes used and guarantee.
#[tactic(auto, unfolding(allowance::specs::Allowance::held_by, allowance::specs::Allowance::is_open))]
fn held(j: JobNow) -> u64
    ensures { result ≡ held_by (job_of j) }
{
    if j.mark == 1 {
        j.used.max(j.guarantee)
    } else {
        0
    }
}

// Whether guarantee and use are within the cap, and the mark is 0 or 1.
#[tactic(auto, unfolding(allowance::specs::Allowance::cap_no_smaller, allowance::specs::Allowance::use_fits))]
fn job_fits(j: JobNow) -> bool
    ensures { result ≡ (cap_no_smaller (job_of j) && use_fits (job_of j)) }
{
    j.guarantee <= j.cap && j.used <= j.cap && j.mark <= 1
}

// The jobs one after another, with what is left of T for guarantees and for what they hold: so no sum is ever made.
fn rest_of(a: &[u64], count: usize, total: u64) -> Option<u64>
    requires { count ≤ 8 }
    ensures { rest_in result ≡ left_over total total (jobs_from count (drop 2 a.now)) }
{
    let mut promised = total;
    let mut left = total;
    for i in 0..count {
        let j = job_at(a, i);
        if !job_fits(j) {
            return None;
        }
        promised = promised.checked_sub(j.guarantee)?;
        left = left.checked_sub(held(j))?;
    }
    Some(left)
}

// ---- what a call for a job meets

// How many bytes are admitted to a job, with what is left beyond what all open jobs hold.
#[tactic(auto, unfolding(crate::specs::Answers::most_by))]
fn most_by(j: JobNow, left: u64) -> u64
    requires { left + held_by (job_of j) ≤ 18446744073709551615 }
    ensures { result ≡ most_by (job_of j) left }
{
    (left + held(j)).min(j.cap).saturating_sub(j.used)
}

// Refused where the job was not set up, then where the state does not fit; else whether it is open, and how many bytes
// are admitted.
pub fn standing_of(a: &[u64], job: u32) -> Result<Admitted, JobRefusal>
    ensures { result ≡ admission_of (allowance_in a.now) job (job_standing (allowance_in a.now) job) }
{
    let count = lent_number(a, 1);
    if count <= u64::from(job) {
        return Err(JobRefusal::Unknown);
    }
    if 8 < count {
        return Err(JobRefusal::Unfit);
    }
    let left = rest_of(a, count as usize, lent_number(a, 0)).ok_or(JobRefusal::Unfit)?;
    let j = job_at(a, job as usize);
    Ok(Admitted {
        is_open: j.mark == 1,
        most: most_by(j, left),
    })
}

// ---- what changes

// So many bytes more are used at a job's place.
fn spend_at(a: &mut [u64; 34], i: usize, bytes: u64)
    requires i_bound { i < 8 }
    requires bytes_bound { bytes ≤ room_at a.old i }
    ensures { allowance_in a.new ≡ spend (allowance_in a.old) i bytes }
{
    a[4 + 4 * i] = job_at(a, i).used + bytes;
}

// The bytes of a record that was taken are spent where they are admitted; where they aren't nothing changes.
pub fn spend_bytes(a: &mut [u64; 34], job: u32, bytes: u64)
    ensures { allowance_in a.new ≡ spent_in (allowance_in a.old) job bytes }
{
    if let Ok(admitted) = standing_of(a, job) {
        if bytes <= admitted.most {
            spend_at(a, job as usize, bytes);
        }
    }
}

// THE CLOSE CALL: where it is not refused the job is closed; what it used stays.
pub fn close_job(a: &mut [u64; 34], job: u32) -> Result<(), JobRefusal>
    ensures { Closes a.old job result a.new }
{
    standing_of(a, job)?;
    a[5 + 4 * (job as usize)] = 0;
    Ok(())
}

// ---- set-up

// A job begins at a place where there was none.
#[tactic(auto, unfolding(crate::specs::Answers::started_at))]
fn start_at(a: &mut [u64; 34], k: usize, guarantee: u64, cap: u64)
    requires { k < 8 }
    ensures { a.new ≡ started_at a.old k guarantee cap }
{
    a[2 + 4 * k] = guarantee;
    a[3 + 4 * k] = cap;
    a[5 + 4 * k] = 1;
}

// Jobs that are open and have used nothing, each with its guarantee and cap; the places behind them are zeros.
fn fresh_numbers(total: u64, count: usize, terms: &[u64]) -> [u64; 34]
    requires { count ≤ 8 }
    ensures { allowance_in result ≡ fresh_allowance total count terms.now }
{
    let mut a = [0; 34];
    a[0] = total;
    a[1] = count as u64;
    // by number, since the job's place and its two terms both go by it: pieces of two would have to be counted too
    for k in 0..count {
        let from = 2 * k;
        start_at(
            &mut a,
            k,
            lent_number(terms, from),
            lent_number(terms, from + 1),
        );
    }
    a
}

// SET-UP of all jobs together: refused for more than 8, then where there are not two numbers for each, then where
// guarantees, caps or T break the conditions; else the allowance is written.
// The count stands beside the terms, which may be longer: any may be handed in of both, and each has its refusal.
pub fn set_up_jobs(
    total: u64,
    count: u64,
    terms: &[u64],
    a: &mut [u64; 34],
) -> Result<(), JobRefusal>
    ensures { SetsUp total count terms.now a.old result a.new }
{
    if 8 < count {
        return Err(JobRefusal::Unknown);
    }
    let jobs = count as usize;
    if terms.len() < 2 * jobs {
        return Err(JobRefusal::Unfit);
    }
    let fresh = fresh_numbers(total, jobs, terms);
    rest_of(&fresh, jobs, total).ok_or(JobRefusal::Unknown)?;
    *a = fresh;
    Ok(())
}

// ---- the dispatcher

// The lowest waiting job that is not below a number.
fn waiting_from(waiting: u8, from: u32) -> Option<u32>
    ensures { named_in result ≡ waiting_from from 0 (waiting_in waiting) }
{
    (from..8).find(|&n| waiting >> n & 1 == 1)
}

// THE DISPATCHER: the next waiting job above the one served last, else the lowest. A last of 8 or more is none.
// `last` is no Option: any caller may hand in any number, and one past the jobs would still have to count as none.
pub fn next_job(waiting: u8, last: u32) -> Option<u32>
    ensures { named_in result ≡ next_job (some last) (waiting_in waiting) }
{
    waiting_from(waiting, last.saturating_add(1)).or_else(|| waiting_from(waiting, 0))
}

// ---- the end of the code
