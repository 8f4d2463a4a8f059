//! What a link is told to do, as bytes.

ghost use Rattle.std.specs.Prelude.{◌≡◌, ◌++◌, true, IfErr, OnOk};
ghost use Rattle.ln_store.specs.Format.{Finds, number, fixed, sized, ◌&◌, optional};
ghost use Rattle.ln_wire.specs.Commands as it;
ghost use Rattle.ln_wire.specs.Commands.{command_told, command_at};

use crate::marks::{mark_at, mark_fits, put_mark, put_short_id, short_id_at, short_id_fits};
use crate::wire::Wire;
use ln_bytes::Bytes;
use ln_channel::Command;
use ln_log::{ChannelId, Mark};
use ln_refusals::Refusal;
use ln_store::lists::{optional_at, optional_fits, put_optional};
use ln_store::stored::{
    array_at, array_fits, put, put_short, put_u8, put_u16, put_u32, put_u64, short_at, u16_at,
    u16_fits, u32_at, u32_fits, u64_at, u64_fits,
};
use std::alloc::Global;

// ---- reading

fn confirm_at(bytes: &[u8]) -> Result<(Command, &[u8]), Refusal>
    ensures { Finds (λ x. (x.0, x.1.now)) result (command_at 0 bytes.now) }
{
    let (id, rest) = short_id_at(bytes)?;
    Ok((Command::Confirm(id), rest))
}

fn add_at(alloc: Global, bytes: &[u8]) -> Result<(Command, &[u8]), Refusal>
    ensures { Finds (λ x. (x.0, x.1.now)) result (command_at 1 bytes.now) }
{
    let (amount, rest) = u64_at(bytes)?;
    let (hash, rest) = array_at(rest)?;
    let (expiry, rest) = u32_at(rest)?;
    let (onion, rest) = array_at(rest)?;
    let (origin, rest) = optional_at(alloc, rest)?;
    let add = Command::Add {
        amount,
        hash,
        expiry,
        onion,
        origin,
    };
    Ok((add, rest))
}

fn fulfil_at(bytes: &[u8]) -> Result<(Command, &[u8]), Refusal>
    ensures { Finds (λ x. (x.0, x.1.now)) result (command_at 2 bytes.now) }
{
    let (id, rest) = u64_at(bytes)?;
    let (preimage, rest) = array_at(rest)?;
    Ok((Command::Fulfil { id, preimage }, rest))
}

fn fail_at(alloc: Global, bytes: &[u8]) -> Result<(Command, &[u8]), Refusal>
    ensures { Finds (λ x. (x.0, x.1.now)) result (command_at 3 bytes.now) }
{
    let (id, rest) = u64_at(bytes)?;
    let (reason, rest) = short_at(alloc, rest)?;
    Ok((Command::Fail { id, reason }, rest))
}

fn malformed_at(bytes: &[u8]) -> Result<(Command, &[u8]), Refusal>
    ensures { Finds (λ x. (x.0, x.1.now)) result (command_at 4 bytes.now) }
{
    let (id, rest) = u64_at(bytes)?;
    let (sha, rest) = array_at(rest)?;
    let (code, rest) = u16_at(rest)?;
    Ok((Command::Malformed { id, sha, code }, rest))
}

fn fee_at(bytes: &[u8]) -> Result<(Command, &[u8]), Refusal>
    ensures { Finds (λ x. (x.0, x.1.now)) result (command_at 5 bytes.now) }
{
    let (feerate, rest) = u32_at(bytes)?;
    Ok((Command::Fee(feerate), rest))
}

fn shutdown_at(alloc: Global, bytes: &[u8]) -> Result<(Command, &[u8]), Refusal>
    ensures { Finds (λ x. (x.0, x.1.now)) result (command_at 7 bytes.now) }
{
    let (script, rest) = short_at(alloc, bytes)?;
    Ok((Command::Shutdown(script), rest))
}

fn decide_at(alloc: Global, bytes: &[u8]) -> Result<(Command, &[u8]), Refusal>
    ensures { Finds (λ x. (x.0, x.1.now)) result (command_at 8 bytes.now) }
{
    let (event, rest) = u64_at(bytes)?;
    let (mark, rest) = mark_at(alloc, rest)?;
    Ok((Command::Decide { event, mark }, rest))
}

fn forget_at(bytes: &[u8]) -> Result<(Command, &[u8]), Refusal>
    ensures { Finds (λ x. (x.0, x.1.now)) result (command_at 9 bytes.now) }
{
    let (id, rest) = u64_at(bytes)?;
    Ok((Command::Forget(id), rest))
}

fn resume_at(alloc: Global, bytes: &[u8]) -> Result<(Command, &[u8]), Refusal>
    ensures { Finds (λ x. (x.0, x.1.now)) result (command_at 10 bytes.now) }
{
    let (event, rest) = u64_at(bytes)?;
    let (mark, rest) = mark_at(alloc, rest)?;
    Ok((Command::Resume { event, mark }, rest))
}

// ---- writing

fn tag_of(command: &Command) -> u8
    ensures { result ≡ (command_told command.now).tag }
{
    match command {
        Command::Confirm(_) => 0,
        Command::Add { .. } => 1,
        Command::Fulfil { .. } => 2,
        Command::Fail { .. } => 3,
        Command::Malformed { .. } => 4,
        Command::Fee(_) => 5,
        Command::Sign => 6,
        Command::Shutdown(_) => 7,
        Command::Decide { .. } => 8,
        Command::Forget(_) => 9,
        Command::Resume { .. } => 10,
    }
}

fn put_add(
    out: &mut Vec<u8>,
    amount: u64,
    hash: &[u8; 32],
    expiry: u32,
    onion: &[u8; 1366],
    origin: &Option<(ChannelId, u64)>,
) -> Result<(), Refusal>
    requires { (optional (fixed 32 & number 8)).fits origin.now ≡ true }
    ensures appends_it { OnOk result (out.new.items ≡ out.old.items
        ++ it.add_form.bytes (amount, (hash.now, (expiry, (onion.now, origin.now))))) }
    ensures fails_for_memory_alone { IfErr result (λ e. e ≡ Refusal.Memory) }
{
    put_u64(out, amount)?;
    put(out, hash)?;
    put_u32(out, expiry)?;
    put(out, onion)?;
    put_optional(out, origin)
}

fn put_reason(out: &mut Vec<u8>, id: u64, reason: &Bytes) -> Result<(), Refusal>
    requires { (sized 2).fits reason.now ≡ true }
    ensures appends_it { OnOk result (out.new.items ≡ out.old.items ++ (number 8 & sized 2).bytes (id, reason.now)) }
    ensures fails_for_memory_alone { IfErr result (λ e. e ≡ Refusal.Memory) }
{
    put_u64(out, id)?;
    put_short(out, reason.as_slice())
}

fn put_preimage(out: &mut Vec<u8>, id: u64, preimage: &[u8; 32]) -> Result<(), Refusal>
    ensures appends_it { OnOk result (out.new.items ≡ out.old.items ++ (number 8 & fixed 32).bytes (id, preimage.now)) }
    ensures fails_for_memory_alone { IfErr result (λ e. e ≡ Refusal.Memory) }
{
    put_u64(out, id)?;
    put(out, preimage)
}

fn put_malformed(out: &mut Vec<u8>, id: u64, sha: &[u8; 32], code: u16) -> Result<(), Refusal>
    ensures appends_it { OnOk result (out.new.items ≡ out.old.items
        ++ (number 8 & fixed 32 & number 2).bytes (id, (sha.now, code))) }
    ensures fails_for_memory_alone { IfErr result (λ e. e ≡ Refusal.Memory) }
{
    put_u64(out, id)?;
    put(out, sha)?;
    put_u16(out, code)
}

fn put_decision(out: &mut Vec<u8>, event: u64, mark: &Mark) -> Result<(), Refusal>
    requires { it.any_mark.fits mark.now ≡ true }
    ensures appends_it { OnOk result (out.new.items ≡ out.old.items
        ++ (number 8 & it.any_mark).bytes (event, mark.now)) }
    ensures fails_for_memory_alone { IfErr result (λ e. e ≡ Refusal.Memory) }
{
    put_u64(out, event)?;
    put_mark(out, mark)
}

fn put_fields(out: &mut Vec<u8>, command: &Command) -> Result<(), Refusal>
    requires { (command_told command.now).fits ≡ true }
    ensures appends_them { OnOk result (out.new.items ≡ out.old.items ++ (command_told command.now).fields) }
    ensures fails_for_memory_alone { IfErr result (λ e. e ≡ Refusal.Memory) }
{
    match command {
        Command::Confirm(id) => put_short_id(out, id),
        Command::Add {
            amount,
            hash,
            expiry,
            onion,
            origin,
        } => put_add(out, *amount, hash, *expiry, onion, origin),
        Command::Fulfil { id, preimage } => put_preimage(out, *id, preimage),
        Command::Fail { id, reason } => put_reason(out, *id, reason),
        Command::Malformed { id, sha, code } => put_malformed(out, *id, sha, *code),
        Command::Fee(feerate) => put_u32(out, *feerate),
        Command::Sign => Ok(()),
        Command::Shutdown(script) => put_short(out, script.as_slice()),
        Command::Decide { event, mark } => put_decision(out, *event, mark),
        Command::Forget(id) => put_u64(out, *id),
        Command::Resume { event, mark } => put_decision(out, *event, mark),
    }
}

impl Wire for Command {
    ghost format = { it.command_form };

    #[tactic(auto, unfolding(crate::specs::Commands::command_form))]
    fn read(alloc: Global, bytes: &[u8]) -> Result<(Command, &[u8]), Refusal> {
        let [tag, rest @ ..] = bytes else {
            return Err(Refusal::Damaged);
        };
        match *tag {
            0 => confirm_at(rest),
            1 => add_at(alloc, rest),
            2 => fulfil_at(rest),
            3 => fail_at(alloc, rest),
            4 => malformed_at(rest),
            5 => fee_at(rest),
            6 => Ok((Command::Sign, rest)),
            7 => shutdown_at(alloc, rest),
            8 => decide_at(alloc, rest),
            9 => forget_at(rest),
            10 => resume_at(alloc, rest),
            _ => Err(Refusal::Damaged),
        }
    }

    #[tactic(auto, unfolding(crate::specs::Commands::command_form))]
    fn fits(&self) -> bool {
        match self {
            Command::Confirm(id) => short_id_fits(id),
            Command::Add {
                amount,
                hash,
                expiry,
                onion,
                origin,
            } => {
                u64_fits(*amount)
                    && array_fits(hash)
                    && u32_fits(*expiry)
                    && array_fits(onion)
                    && optional_fits(origin)
            }
            Command::Fulfil { id, preimage } => u64_fits(*id) && array_fits(preimage),
            Command::Fail { id, reason } => u64_fits(*id) && reason.len() < 65_536,
            Command::Malformed { id, sha, code } => u64_fits(*id)
                && array_fits(sha)
                && u16_fits(*code),
            Command::Fee(feerate) => u32_fits(*feerate),
            Command::Sign => true,
            Command::Shutdown(script) => script.len() < 65_536,
            Command::Decide { event, mark } => u64_fits(*event) && mark_fits(mark),
            Command::Forget(id) => u64_fits(*id),
            Command::Resume { event, mark } => u64_fits(*event) && mark_fits(mark),
        }
    }

    #[tactic(auto, unfolding(crate::specs::Commands::command_form))]
    fn write(&self, out: &mut Vec<u8>) -> Result<(), Refusal> {
        put_u8(out, tag_of(self))?;
        put_fields(out, self)
    }
}
