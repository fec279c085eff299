// A row finds its file's record in a list of records: one lookup, and a row's aligned time by it.
#![tactic(auto)]

ghost use Rattle.std.specs.Prelude.{◌≡◌};
ghost use Rattle.records.specs.Record.{time_found, LookupCall, TimeByCall, TimeByNumberCall, AlignedCall};

pub use retention_alignment::Alignment;
use status::Refusal;

// The record with the one NaN for every NaN.
fn canonical(a: Alignment) -> Alignment
    ensures { result ≡ a }
{
    Alignment {
        max_rt: float::canonical32(a.max_rt),
        slope: float::canonical32(a.slope),
        intercept: float::canonical32(a.intercept),
        used: a.used,
        max_rt_exact: a.max_rt_exact,
        slope_exact: a.slope_exact,
        intercept_exact: a.intercept_exact,
    }
}

// The record of a file, with the one NaN for every NaN of the list; BadFile where the list ends before it.
pub fn record_of(records: &[Alignment], file: u32) -> Result<Alignment, Refusal>
    ensures { LookupCall records.now file result }
{
    let found = records.get(file as usize).ok_or(Refusal::BadFile)?;
    Ok(canonical(*found))
}

// A time by what a lookup found. What says why it found nothing is passed on.
fn time_found<E: Drop>(found: Result<Alignment, E>, rt: f32) -> Result<f32, E>
    ensures { result ≡ time_found found rt }
{
    let a = found?;
    Ok(retention_alignment::aligned_time(a.max_rt, a.slope, a.intercept, rt))
}

// A time by what a lookup found.
pub fn time_by(found: Result<Alignment, Refusal>, rt: f32) -> Result<f32, Refusal>
    ensures { TimeByCall found rt result }
{
    time_found(found, rt)
}

// The same of a lookup whose refusal is a number of any kind: for who looks up with numbers of its own.
pub fn time_by_number(numbered: Result<Alignment, u8>, rt: f32) -> Result<f32, u8>
    ensures { TimeByNumberCall numbered rt result }
{
    time_found(numbered, rt)
}

// The aligned time of a row with this file and this time, by the record that the list has for the file.
pub fn aligned(records: &[Alignment], file: u32, rt: f32) -> Result<f32, Refusal>
    ensures { AlignedCall records.now file rt result }
{
    time_by(record_of(records, file), rt)
}
