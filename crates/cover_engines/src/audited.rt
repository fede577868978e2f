//! What an audit of a run's books adds to the run's answer.

ghost use Rattle.std.specs.Prelude.{Err, ◌≡◌, ◌≢◌, ◌++◌, codes, decimal, option_map, string_bytes, IfOk, IfSome};
ghost use Rattle.audit.specs.declared.auditing.Unclean.TheVariants as unclean;
ghost use Rattle.dlx_reader.specs.Writing.{IsWritable};
ghost use Rattle.cover_engines.specs.Audit.{audited_said, finding_line, finding_status};
ghost use Rattle.dlx_reader.specs.Devices.{failed_once};
ghost use Rattle.search_engines.specs.Output.{IsOutput};

use audit::{Clean, Unclean};
use cover_problem::{Answer, Problem};
use dlx_reader::Sink;
use search_engines::{EngineFault, write_line, write_published};
use spawn_frame::Site;
use std::alloc::{AllocError, Global};

/// The exit status where the books are not found to be one run of the world.
const UNCLEAN: u8 = 6;

/// What an audit found.
pub type AuditFinding = Result<Clean, Unclean>;

/// A text, a number in decimal digits, and what follows it.
fn numbered(alloc: Global, front: &str, number: u64, behind: &str) -> Result<String, AllocError>
    ensures { IfOk result (λ text. string_bytes text ≡ front.now ++ decimal number ++ behind.now) }
{
    format!(in alloc; "{front}{number}{behind}")
}

/// A text, a site's node and incarnation, and what follows them.
fn with_site(alloc: Global, front: &str, site: Site, behind: &str) -> Result<String, AllocError>
    ensures { IfOk result (λ text. string_bytes text
        ≡ front.now ++ decimal site.node ++ codes " incarnation " ++ decimal site.incarnation
        ++ behind.now) }
{
    let node = numbered(alloc, front, u64::from(site.node), " incarnation ")?;
    numbered(alloc, &node, u64::from(site.incarnation), behind)
}

/// The line of a site that has no book.
fn missing_line(alloc: Global, site: Site) -> Result<String, AllocError>
    ensures { IfOk result (λ line. string_bytes line ≡ finding_line
        (Err (unclean.MissingBook site))) }
{
    with_site(alloc, "audit unclean: MissingBook node ", site, "\n")
}

/// The line of a packet that was never sent.
fn unsent_line(alloc: Global, site: Site, place: usize) -> Result<String, AllocError>
    ensures { IfOk result (λ line. string_bytes line ≡ finding_line
        (Err (unclean.NeverSent site place))) }
{
    let front = with_site(alloc, "audit unclean: NeverSent node ", site, " place ")?;
    numbered(alloc, &front, place as u64, "\n")
}

/// The line of what was found. It fails only if memory runs out, here or in the audit.
fn line_of(alloc: Global, found: AuditFinding) -> Result<String, AllocError>
    ensures line { IfOk result (λ line. string_bytes line ≡ finding_line found) }
    ensures ended { IfOk result (λ _. found ≢ Err unclean.Memory) }
{
    match found {
        Ok(Clean) => String::from_str(alloc, "audit clean\n"),
        Err(Unclean::MissingBook(site)) => missing_line(alloc, site),
        Err(Unclean::NeverSent(site, place)) => unsent_line(alloc, site, place),
        Err(Unclean::Memory) => Err(AllocError),
    }
}

/// The exit status of an answer whose status is this.
fn status_of(found: AuditFinding, status: u8) -> u8
    ensures { result ≡ finding_status found status }
{
    match found {
        Ok(Clean) => status,
        Err(_) => UNCLEAN,
    }
}

/// Writes what is published, or that nothing is, then the line of what was found, and returns the status. The line is
/// made before anything is written, so that nothing is written where memory runs out, here or in the audit.
pub fn write_audited<W: Sink>(
    alloc: Global,
    problem: &Problem,
    published: Option<&Answer>,
    found: AuditFinding,
    sink: &mut W,
) -> Result<u8, EngineFault>
    requires order { IfSome published (λ answer. IsWritable problem.now answer.now) }
    ensures output { IsOutput (audited_said problem.now (option_map
        (λ answer. answer.now) published.entry) found)
        (W.contents sink.old) (W.contents sink.new) result }
    ensures failed { result ≡ Err EngineFault.Write → W.failed sink.new ≡ failed_once (W.failed sink.old) }
    ensures starved { found ≡ Err unclean.Memory → result ≡ Err EngineFault.Memory }
{
    let Ok(line) = line_of(alloc, found) else {
        return Err(EngineFault::Memory);
    };
    let status = write_published(problem, published, sink)?;
    write_line(line.as_bytes(), status_of(found, status), sink)
}
