// Run files: the records of a run, read one after the other. The progress of a reader is passed by value and holds no octet of them.
#![tactic(auto)]

ghost use Rattle.std.specs.Prelude.{◌≡◌, true};
ghost use Rattle.frames.specs.Frame.{frame_length};
ghost use Rattle.runfile.specs.RunFile.{setup_of, plain, fits};
ghost use Rattle.runfile.specs.Steps.{next_record, bad, reachable, body_length, taken, closed};

use frames::{Channel, Edition, Link, MOST_FRAMES, Settings};

// How far the reading of a run file is, between two records.
#[derive(Clone, Copy)]
pub enum Progress {
    // Before the setup.
    Start,
    // After the setup and so many frames.
    Running { settings: Settings, frames: u32 },
    // After the end of a run of so many frames.
    Ended { frames: u32 },
    // The record of this number was bad.
    Bad { record: u64 },
}

// The kinds of records, as the octets that they begin with.
pub const SETUP: u8 = 1;

pub const FRAME: u8 = 2;

pub const END: u8 = 3;

// The octets of a setup's body.
const SETUP_LENGTH: usize = 7;

// The greatest limit that a setup may give.
const MOST_LIMIT: usize = 4096;

// The settings that the body of a setup gives.
#[tactic(auto, unfolding(crate::specs::RunFile::setup_of))]
fn setup_of(body: &[u8]) -> Settings
    ensures { result ≡ setup_of body.now }
{
    let link = Link {
        spacecraft: octets::octet(body, 0) as u32,
        channel: octets::octet(body, 1) as u32,
        trailed: false,
        edition: Edition::Former,
    };
    Settings {
        link,
        zone: octets::number::<2>(body, 2) as usize,
        limit: octets::number::<3>(body, 4) as usize,
        fill: 0,
    }
}

// Whether a link has nothing of which a setup cannot speak.
#[tactic(auto, unfolding(crate::specs::RunFile::plain))]
fn is_plain(l: Link) -> bool
    ensures { result ≡ plain l }
{
    matches!(l.edition, Edition::Former) & !l.trailed
}

// Whether a setup can give these settings, the fill octet apart.
#[tactic(auto, unfolding(crate::specs::RunFile::fits))]
fn fits(s: Settings) -> bool
    ensures { result ≡ fits s }
{
    s.in_range() & ((s.limit <= MOST_LIMIT) & is_plain(s.link))
}

// The number of the record that comes next, or of the one that was bad.
#[tactic(auto, unfolding(crate::specs::Steps::next_record))]
fn next_record(p: Progress) -> u64
    ensures { result ≡ next_record p }
{
    match p {
        Progress::Start => 0,
        Progress::Running { frames, .. } => frames as u64 + 1,
        Progress::Ended { frames } => frames as u64 + 2,
        Progress::Bad { record } => record,
    }
}

// The record that comes next is bad.
fn bad(p: Progress) -> Progress
    ensures { result ≡ bad p }
{
    Progress::Bad {
        record: next_record(p),
    }
}

// Whether a file can lead to this progress.
#[tactic(auto, unfolding(crate::specs::Steps::reachable))]
fn reachable(p: Progress) -> bool
    ensures { result ≡ reachable p }
{
    match p {
        Progress::Start => true,
        Progress::Running { settings, frames } => {
            fits(settings) & ((settings.fill == 0) & (frames <= MOST_FRAMES))
        }
        Progress::Ended { frames } => frames <= MOST_FRAMES,
        Progress::Bad { record } => record <= MOST_FRAMES as u64 + 2,
    }
}

// The octets of a frame, which has no trailer.
#[tactic(auto, using(crate::proofs::Bounds::frame_plain, crate::proofs::Bounds::fitting))]
fn frame_length(s: Settings) -> usize
    requires { fits s ≡ true }
    ensures { result ≡ frame_length s }
{
    s.zone + frames::ZONE_AT
}

// How many octets of body the next record has, by its kind; 0 where it is bad.
#[tactic(auto, unfolding(crate::specs::Steps::body_length))]
pub fn body_length(p: Progress, kind: u8) -> usize
    ensures { result ≡ body_length p kind }
{
    if !reachable(p) {
        return 0;
    }
    match (p, kind) {
        (Progress::Start, SETUP) => SETUP_LENGTH,
        (Progress::Running { settings, frames }, FRAME) if frames < MOST_FRAMES => {
            frame_length(settings)
        }
        _ => 0,
    }
}

// The progress after the setup.
#[tactic(auto, unfolding(crate::specs::Steps::taken))]
fn take_setup(body: &[u8]) -> Progress
    ensures { result ≡ taken Progress.Start 1 body.now }
{
    let settings = setup_of(body);
    if (body.len() == SETUP_LENGTH) & fits(settings) {
        Progress::Running {
            settings,
            frames: 0,
        }
    } else {
        bad(Progress::Start)
    }
}

// The progress after a frame, which comes after so many.
#[tactic(auto, unfolding(crate::specs::Steps::taken, frames::specs::Frame::frame_length))]
fn take_frame(s: Settings, count: u32, body: &[u8]) -> Progress
    requires { reachable (Progress.Running s count) ≡ true }
    ensures { result ≡ taken (Progress.Running s count) 2 body.now }
{
    if (count < MOST_FRAMES) & frames::has_length(s, body.len()) {
        Progress::Running {
            settings: s,
            frames: count + 1,
        }
    } else {
        bad(Progress::Running {
            settings: s,
            frames: count,
        })
    }
}

// The progress after a record of this kind and this body, which is shorter than its length where the input is cut.
#[tactic(auto, unfolding(crate::specs::Steps::taken))]
pub fn take(p: Progress, kind: u8, body: &[u8]) -> Progress
    ensures { result ≡ taken p kind body.now }
{
    if !reachable(p) {
        return bad(p);
    }
    match (p, kind) {
        (Progress::Start, SETUP) => take_setup(body),
        (Progress::Running { settings, frames }, FRAME) => take_frame(settings, frames, body),
        (Progress::Running { frames, .. }, END) if body.is_empty() => Progress::Ended { frames },
        _ => bad(p),
    }
}

// The progress when the input has ended.
#[tactic(auto, unfolding(crate::specs::Steps::closed))]
pub fn close(p: Progress) -> Progress
    ensures { result ≡ closed p }
{
    match p {
        Progress::Ended { .. } if reachable(p) => p,
        _ => bad(p),
    }
}
