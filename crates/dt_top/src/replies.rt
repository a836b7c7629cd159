//! What the program comes to, before it writes anything.
ghost use Rattle.std.specs.Prelude.{◌≡◌, ◌≤◌, IfErr, IfOk, List, Option, Some};
ghost use Rattle.std.specs.String.{string_bytes};
ghost use Rattle.dt_record.specs.declared.streams.Next.{Next};
ghost use Rattle.dt_probe_file.specs.Told.{AreToldOf};
ghost use Rattle.dt_words.specs.Table.{Asked};
ghost use Rattle.dt_top.specs.Answer.{image_answer, refusal_line, refusal_status, verdict_status};
ghost use Rattle.dt_top.specs.Replies.{CameOf, IsRefusalReply, IsReportReply, IsStreamReply, JudgesFile, answer_by};
ghost use Rattle.dt_top.specs.Running.{outside};

use dt_image::{Image, ImageRefusal, load};
use dt_pass::pass;
use dt_probe_file::{FileProbes, Room};
use dt_record::What;
use dt_report::{Text, report};
use dt_source::Source;
use dt_verdict::{Checked, Refusal, Verdict};
use std::alloc::{AllocError, Global};

/// What the program comes to.
#[derive(Debug, Drop)]
pub enum Reply {
    /// The words are not in the table of commands.
    Usage,
    /// The image has more bytes than there may be.
    TooLong,
    ReadFaultImage,
    /// The records of the probe file are not judged.
    Refused { refusal: Refusal, line: String },
    Report { verdict: Verdict, text: Text },
    OutOfMemory,
}

/// The exit status of a verdict.
fn verdict_status(verdict: &Verdict) -> u8
    ensures { result ≡ verdict_status verdict.now }
{
    match verdict {
        Verdict::Pass => 0,
        Verdict::Fail(_) => 1,
    }
}

/// The exit status of a refusal.
fn refusal_status(refusal: &Refusal) -> u8
    ensures { result ≡ refusal_status refusal.now }
{
    match refusal {
        Refusal::Malformed { .. } => 4,
        Refusal::ReadFault => 5,
        Refusal::OutOfMemory => 7,
        Refusal::Limit { .. } => 8,
    }
}

/// The line of a refusal.
fn refusal_line(alloc: Global, refusal: &Refusal) -> Result<String, AllocError>
    ensures { IfOk result (λ line. string_bytes line ≡ refusal_line refusal.now) }
{
    match refusal {
        Refusal::Malformed { offset } => format!(in alloc; "MALFORMED offset={offset}\n"),
        Refusal::Limit { what, number } => match what {
            What::Records => format!(in alloc; "LIMIT records={number}\n"),
            What::Writes => format!(in alloc; "LIMIT writes={number}\n"),
        },
        Refusal::ReadFault => String::from_str(alloc, "READ FAULT probes\n"),
        Refusal::OutOfMemory => String::from_str(alloc, "OUT OF MEMORY\n"),
    }
}

impl Reply {
    /// The exit status.
    pub fn status(&self) -> u8
        ensures { result ≡ (answer_by self.now).status }
    {
        match self {
            Reply::Report { verdict, .. } => verdict_status(verdict),
            Reply::Usage => 2,
            Reply::TooLong => 3,
            Reply::ReadFaultImage => 5,
            Reply::OutOfMemory => 7,
            Reply::Refused { refusal, .. } => refusal_status(refusal),
        }
    }

    /// What is written.
    pub fn text(&self) -> &[u8]
        ensures { result.now ≡ (answer_by self.now).text }
    {
        match self {
            Reply::Usage => "USAGE\n".as_bytes(),
            Reply::TooLong => "IMAGE TOO LONG\n".as_bytes(),
            Reply::ReadFaultImage => "READ FAULT image\n".as_bytes(),
            Reply::Refused { line, .. } => line.as_str().as_bytes(),
            Reply::Report { text, .. } => text.bytes(),
            Reply::OutOfMemory => "OUT OF MEMORY\n".as_bytes(),
        }
    }
}

/// The reply to a check that came to its end.
fn report_reply(alloc: Global, checked: &Checked, sources: bool) -> Reply
    ensures { IsReportReply checked.now sources result }
{
    match report(alloc, checked, sources) {
        Ok(text) => Reply::Report {
            verdict: checked.verdict,
            text,
        },
        Err(_) => Reply::OutOfMemory,
    }
}

/// The reply to a check that was refused.
fn refusal_reply(alloc: Global, refusal: Refusal) -> Reply
    ensures { IsRefusalReply refusal result }
{
    match refusal_line(alloc, &refusal) {
        Ok(line) => Reply::Refused { refusal, line },
        Err(_) => Reply::OutOfMemory,
    }
}

/// The reply to an image that was refused.
pub fn image_reply(refusal: ImageRefusal) -> Reply
    ensures { answer_by result ≡ image_answer refusal }
{
    match refusal {
        ImageRefusal::TooLong => Reply::TooLong,
        ImageRefusal::ReadFault => Reply::ReadFaultImage,
        ImageRefusal::OutOfMemory => Reply::OutOfMemory,
    }
}

/// The reply to a stream that was judged.
pub fn judged_reply(alloc: Global, sources: bool, answer: Result<Checked, Refusal>) -> Reply
    ensures report { IfOk answer (λ checked. IsReportReply checked sources result) }
    ensures refused { IfErr answer (λ refusal. IsRefusalReply refusal result) }
{
    match answer {
        Ok(checked) => report_reply(alloc, &checked, sources),
        Err(refusal) => refusal_reply(alloc, refusal),
    }
}

/// The reply to an image and a probe file, on one thread.
fn pass_over<P: Source>(alloc: Global, sources: bool, image: &Image, probes: &mut P) -> Reply
    ensures said { (told : Option (List Next)) × AreToldOf (P.left probes.old) told
        × IsStreamReply image.now sources told
        (outside (P.left probes.old) (P.left probes.new) (P.faults probes.old) (P.faults probes.new)) result }
    ensures never_falls { P.faults probes.old ≤ P.faults probes.new }
{
    let Ok(room) = Room::new(alloc) else {
        return Reply::OutOfMemory;
    };
    let mut stream = FileProbes::within(room, probes);
    let answer = pass(alloc, image, &mut stream);
    stream.into_source();
    judged_reply(alloc, sources, answer)
}

/// The reply to what the sources of an image and a probe file give, on one thread. Where the image is
/// refused, the probe file is not read.
pub fn pass_reply<I: Source, P: Source>(
    alloc: Global,
    sources: bool,
    image: &mut I,
    probes: &mut P,
) -> Reply
    ensures came { (asked : Asked) → JudgesFile asked.task → asked.sources ≡ sources → CameOf (Some asked)
        (outside (I.left image.old) (I.left image.new) (I.faults image.old) (I.faults image.new))
        (outside (P.left probes.old) (P.left probes.new) (P.faults probes.old) (P.faults probes.new)) (answer_by result) }
    ensures image_never_falls { I.faults image.old ≤ I.faults image.new }
    ensures probes_never_falls { P.faults probes.old ≤ P.faults probes.new }
{
    match load(alloc, image) {
        Ok(image) => pass_over(alloc, sources, &image, probes),
        Err(refusal) => image_reply(refusal),
    }
}
