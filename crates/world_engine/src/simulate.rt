//! `simulate`: a world of sites searches a file's problem, by chance.

ghost use Rattle.std.specs.Prelude.{◌≡◌, ◌≢◌, option_map, IfErr, IfOk, IfSome};
ghost use Rattle.std.specs.Io.KnownBytes.{IsAtEnd};
ghost use Rattle.cover_world.specs.Courses.{opening_core};
ghost use Rattle.dlx_reader.specs.Devices.{failed_once};
ghost use Rattle.dlx_reader.specs.Writing.{IsWritable};
ghost use Rattle.search_engines.specs.Engines.{IsEnded, refuses_none};
ghost use Rattle.search_engines.specs.Failures.{Tells, plain};
ghost use Rattle.search_engines.specs.Output.{IsOutputOf, status_in};
ghost use Rattle.world_engine.specs.Simulate.{IsSimulated, SimulateSays};

use cover_problem::{Answer, Problem};
use cover_world::{World, simulate};
use dlx_reader::{Sink, Source};
use rand_core::SeedableRng;
use rand_pcg::Pcg32;
use run_settings::Settings;
use search_engines::{
    EngineEnd, EngineFault, Failure, Unanswered, Written, ended_with, read_whole, write_published,
};
use std::alloc::Global;

/// How a run of `simulate` ended: with status 0 for a cover, 1 for none, 4 where nothing was published.
pub type SimulateEnd = EngineEnd;

/// Returns a copy of what is published. The only fault is `Memory`.
fn copied(published: Option<&Answer>) -> Result<Option<Answer>, EngineFault>
    ensures answer { IfOk result (λ answer.
        answer ≡ option_map (λ given. given.now) published.entry) }
    ensures memory { IfErr result (λ fault. fault ≡ EngineFault.Memory) }
{
    let Some(answer) = published else {
        return Ok(None);
    };
    match answer.clone() {
        Ok(answer) => Ok(Some(answer)),
        Err(_) => Err(EngineFault::Memory),
    }
}

/// Lets a world that has just begun go on as the settings say, and returns what it publishes in the end. The only fault
/// is `Memory`.
fn played_out(world: &mut World, settings: &Settings) -> Result<Option<Answer>, EngineFault>
    requires { world.old ≡ opening_core world.old.problem settings.now.nodes }
    ensures simulated { IfOk result (IsSimulated world.old.problem settings.now) }
    ensures order { IfOk result (λ answer. IfSome answer (IsWritable world.old.problem)) }
    ensures memory { IfErr result (λ fault. fault ≡ EngineFault.Memory) }
{
    let mut rng = Pcg32::seed_from_u64(settings.seed);
    let ended = simulate(
        world,
        &mut rng,
        settings.fuel,
        settings.turns,
        settings.restarts,
    );
    match ended {
        // (a copy, as the answer outlives the world that published it)
        Ok(()) => copied(world.published()),
        Err(_) => Err(EngineFault::Memory),
    }
}

/// Simulates a world that begins with the problem, as the settings say, and returns what it publishes. The only fault
/// is `Memory`.
fn simulated(
    alloc: Global,
    settings: &Settings,
    problem: &Problem,
) -> Result<Option<Answer>, EngineFault>
    ensures simulated { IfOk result (IsSimulated problem.now settings.now) }
    ensures order { IfOk result (λ answer. IfSome answer (IsWritable problem.now)) }
    ensures memory { IfErr result (λ fault. fault ≡ EngineFault.Memory) }
{
    match World::start(alloc, problem, settings.nodes) {
        // (the rest is a function over a reference: where a world is owned each ? drops it, and that takes the prover
        // long)
        Ok(mut world) => played_out(&mut world, settings),
        Err(_) => Err(EngineFault::Memory),
    }
}

/// Writes what a simulation of the problem publishes, and returns how that ended.
fn write_simulation<W: Sink>(
    alloc: Global,
    settings: &Settings,
    problem: &Problem,
    sink: &mut W,
) -> Result<Written, EngineFault>
    ensures output { IsOutputOf (SimulateSays settings.now problem.now) (W.contents sink.old)
        (W.contents sink.new) (status_in result) }
    ensures failed { result ≡ Err EngineFault.Write → W.failed sink.new ≡ failed_once (W.failed sink.old) }
{
    let answer = simulated(alloc, settings, problem)?;
    let why = match &answer {
        Some(_) => None,
        None => Some(Unanswered::Unpublished),
    };
    let status = write_published(problem, answer.as_ref(), sink)?;
    Ok(Written { status, why })
}

/// Does what `simulate_engine` does. Where nothing is published the end says so, and where the text is refused since no
/// item has a name, the failure has that.
pub fn simulate_source<R: Source, W: Sink>(
    alloc: Global,
    settings: &Settings,
    source: &mut R,
    sink: &mut W,
) -> Result<SimulateEnd, Failure>
    ensures ended { IfSome (R.remaining source.old) (λ text.
        IsEnded (SimulateSays settings.now) refuses_none text (W.contents sink.old)
        (W.contents sink.new) (plain result)) }
    ensures read { plain result ≢ Err EngineFault.Read → plain result ≢ Err EngineFault.Memory →
        IsAtEnd (R.remaining source.new) }
    ensures read_fault { plain result ≡ Err EngineFault.Read → R.failed source.new ≡ failed_once (R.failed source.old) }
    ensures write_fault { plain result ≡ Err EngineFault.Write → W.failed sink.new ≡ failed_once (W.failed sink.old) }
    ensures told { IfSome (R.remaining source.old) (λ text. IfErr result (Tells text)) }
{
    let read = read_whole(alloc, source)?;
    let written = write_simulation(alloc, settings, &read.problem, sink);
    ended_with(written, read.ignored)
}

/// Reads a problem to its end, lets a world of sites search it by chance, as the settings say, and writes the answer
/// that it publishes, or `no answer` where it publishes none. Only tests call this: the program calls
/// `simulate_source`.
///
/// # Errors
///
/// `Read` and `Write` if that device failed, `File` with the text's first fault, and `Memory`. After `Write` a
/// beginning of the answer's text was written, after another fault nothing. At `Memory` the source may have been read
/// in part.
pub fn simulate_engine<R: Source, W: Sink>(
    alloc: Global,
    settings: &Settings,
    source: &mut R,
    sink: &mut W,
) -> Result<SimulateEnd, EngineFault>
    ensures ended { IfSome (R.remaining source.old) (λ text.
        IsEnded (SimulateSays settings.now) refuses_none text (W.contents sink.old)
        (W.contents sink.new) result) }
    ensures read { result ≢ Err EngineFault.Read → result ≢ Err EngineFault.Memory →
        IsAtEnd (R.remaining source.new) }
    ensures read_fault { result ≡ Err EngineFault.Read → R.failed source.new ≡ failed_once (R.failed source.old) }
    ensures write_fault { result ≡ Err EngineFault.Write → W.failed sink.new ≡ failed_once (W.failed sink.old) }
{
    Ok(simulate_source(alloc, settings, source, sink)?)
}
