//! The page log under it: room before each append, a stop in one, and what is opened then.
ghost use Rattle.std.specs.Prelude.{◌≡◌, ◌+◌, ◌*◌, ◌<◌, ◌≤◌, ◌++◌, [], ◌∷◌, ℕ, List, length, replicate, Ok, Some, IfOk, IfErr};
ghost use Rattle.std.specs.Prelude.{OnOk};
ghost use Rattle.hy_base.specs.Shape.{IsGoodShape};
ghost use Rattle.hy_formats.specs.LogFormat.{IsBody, uncut};
ghost use Rattle.hy_formats.specs.LogDevice.{Holds};
ghost use Rattle.hy_disk.specs.Armed.{IsUnarmed};
ghost use Rattle.hy_mem.specs.MemDisk.{content_of, HasRoom, ArmedAt};
ghost use Rattle.hy_formats.specs.declared.refusal.OpenError.TheVariants as opening;
ghost use Rattle.hy_memlog.specs.Pages.{IsSteady, HasRoomFor, IsStop, with_body};

use hy_base::{ArmedStop, Shape};
use hy_disk::Tuned;
use hy_log::{AppendError, OpenError, PageLog, RefusedLog, open_log};
use hy_mem::MemDisk;
use hy_pages::pages_of;
use std::alloc::{AllocError, Global};

/// Makes the places and the room for a body that is appended so many times. Where memory runs out the log is as before.
pub fn make_ready(log: &mut PageLog<MemDisk>, body: &[u8], count: usize) -> Result<(), AllocError>
    requires body { IsBody log.old.shape.version body.now }
    requires few { count ≤ 8 }
    requires steady { IsSteady log.old }
    ensures steady { IsSteady log.new }
    ensures ready { OnOk result (HasRoomFor (length body.now) count log.new) }
    ensures same { (log.new.shape ≡ log.old.shape) × (log.new.bodies ≡ log.old.bodies) }
{
    log.reserve(count)?;
    log.room(count * (1 + 256 * pages_of(body.len())), 4 * count)
}

// Appends a body for which all is ready.
fn put(log: &mut PageLog<MemDisk>, body: &[u8])
    requires body { IsBody log.old.shape.version body.now }
    requires ready { HasRoomFor (length body.now) 1 log.old }
    requires room_left { length log.old.bodies < log.old.shape.cap }
    ensures ready { (count : ℕ) → HasRoomFor (length body.now) (count + 1) log.old
        → HasRoomFor (length body.now) count log.new }
    ensures shape { log.new.shape ≡ log.old.shape }
    ensures bodies { log.new.bodies ≡ log.old.bodies ++ body.now ∷ [] }
{
    let Ok(_) = log.append(body) else {
        unreachable!();
    };
}

/// Appends a body so many times, for which all is ready.
pub fn put_all(log: &mut PageLog<MemDisk>, body: &[u8], count: usize)
    requires body { IsBody log.old.shape.version body.now }
    requires ready { HasRoomFor (length body.now) count log.old }
    requires room_left { length log.old.bodies + count ≤ log.old.shape.cap }
    ensures steady { IsSteady log.new }
    ensures shape { log.new.shape ≡ log.old.shape }
    ensures bodies { log.new.bodies ≡ log.old.bodies ++ replicate count body.now }
{
    for _at in 0..count {
        put(log, body);
    }
}

// The log, where it was opened. A device that doesn't fail is refused only where memory runs out.
fn opened(
    answer: Result<PageLog<MemDisk>, RefusedLog<MemDisk>>,
) -> Result<PageLog<MemDisk>, AllocError>
    requires { IfErr answer (λ refused. refused.error ≡ opening.Memory) }
    ensures { IfOk result (λ log. answer ≡ Ok log) }
{
    match answer {
        Ok(log) => Ok(log),
        Err(RefusedLog { error, .. }) => match error {
            OpenError::Memory => Err(AllocError),
            _ => unreachable!(),
        },
    }
}

/// An empty log of a shape.
pub fn create(alloc: Global, shape: Shape) -> Result<PageLog<MemDisk>, AllocError>
    requires { IsGoodShape shape }
    ensures steady { IfOk result IsSteady }
    ensures log { IfOk result (λ log. (log.shape ≡ shape) × (log.bodies ≡ [])) }
{
    let mut disk = MemDisk::new(alloc, &[], &[])?;
    disk.room(258, 7)?;
    opened(open_log(alloc, disk, Some(shape)))
}

// Opens a device again.
fn reopen(alloc: Global, disk: MemDisk, shape: Shape) -> Result<PageLog<MemDisk>, AllocError>
    requires good { IsGoodShape shape }
    requires room { HasRoom disk 7 258 }
    requires unarmed { IsUnarmed (ArmedAt disk) }
    requires holds { (bodies : List (List ℕ)) × Holds (uncut shape) bodies (content_of disk).seen }
    ensures steady { IfOk result IsSteady }
    ensures log { (bodies : List (List ℕ)) → Holds (uncut shape) bodies (content_of disk).seen
        → IfOk result (λ log. (log.shape ≡ shape) × (log.bodies ≡ bodies)) }
{
    opened(open_log(alloc, disk, Some(shape)))
}

/// Stops in the midst of an append, as ordered: a device call fails, a crash leaves its pattern of the bytes, and what is
/// left is opened again.
pub fn stop_in(
    alloc: Global,
    mut log: PageLog<MemDisk>,
    body: &[u8],
    stop: ArmedStop,
) -> Result<PageLog<MemDisk>, AllocError>
    requires body { IsBody log.shape.version body.now }
    requires ready { HasRoomFor (length body.now) 1 log }
    requires room_left { length log.bodies < log.shape.cap }
    requires stop { IsStop stop }
    ensures steady { IfOk result IsSteady }
    ensures log { IfOk result (λ left. (left.shape ≡ log.shape) × (left.bodies ≡ with_body (Some stop) 1 body.now log.bodies)) }
{
    let shape = log.shape();
    log.arm(u64::from(stop.call));
    if log.append(body).is_ok() {
        unreachable!();
    }
    let mut disk = log.close().stop(stop.pattern);
    disk.room(258, 7)?;
    reopen(alloc, disk, shape)
}
