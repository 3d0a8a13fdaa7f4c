//! The memory of a round, which is taken before it begins.

ghost use Rattle.std.specs.Prelude.{◌≡◌, ◌/◌, ◌<◌, [], false, All, IfOk, vec_len, vec_capacity};
ghost use Rattle.hand_core.specs.CopyEnds.{has_ended};
ghost use Rattle.round_core.specs.Crews.{IsUnused, IsUnsent};
ghost use Rattle.round_core.specs.Runs.{IsFresh, IsEmpty, IsReady, HasRoom};
ghost use Rattle.round_core.specs.Scanning.{HasMore};

use crate::copier::Copier;
use crate::division::Division;
use crate::plan::Plan;
use frame_core::{Copied, Isolated, Serial};
use hand_core::{
    DoneSender, DoneTaker, Giver, HandError, Taker, Takers, done_open_in_batches, open_in_batches,
};
use std::alloc::{AllocError, Global};
use std::collections::VecDeque;

/// The memory of a round: its queues and lists.
#[derive(Drop)]
pub(crate) struct Memory {
    pub(crate) copier_parts: CopierParts,
    pub(crate) copies: Copies,
    pub(crate) pages: Pages,
    pub(crate) joined: CopierResults,
}

/// What the copiers are started with. After the giver and the senders are dropped, all threads that run come to their ends.
#[derive(Drop)]
pub(crate) struct CopierParts {
    pub(crate) giver: Giver,
    pub(crate) takers: Takers,
    pub(crate) senders: Vec<DoneSender>,
    /// An empty list of serials for each copier.
    pub(crate) serials: Vec<Vec<Serial>>,
    /// The copiers that were started.
    pub(crate) copiers: Vec<Copier>,
}

/// The copies that come to the committer.
#[derive(Drop)]
pub(crate) struct Copies {
    pub(crate) taker: DoneTaker,
    /// Those that are committed under one hold of the lock.
    pub(crate) gathered: VecDeque<Copied>,
}

/// The pages of the scanner, and how they are divided.
#[derive(Drop)]
pub(crate) struct Pages {
    pub(crate) division: Division,
    /// Those that are isolated under one hold of the lock.
    pub(crate) list: VecDeque<Isolated>,
    /// How many more the round may isolate, where it has a limit.
    pub(crate) left: Option<u32>,
}

/// What the copiers handed back.
#[derive(Drop)]
pub(crate) struct CopierResults {
    pub(crate) takers: Vec<Taker>,
    pub(crate) lists: Vec<Vec<Serial>>,
    pub(crate) whole: bool,
}

/// Takes the memory of a round whose first page has the serial `base`, with room for `serials` serials in the list of each copier.
pub(crate) fn reserve<R>(
    rt: &R,
    base: Serial,
    serials: usize,
    plan: Plan,
) -> Result<Memory, AllocError>
    requires { HasMore plan.most }
    ensures ready { IfOk result (IsReady base) }
    ensures most { IfOk result (λ memory. memory.pages.left ≡ plan.most) }
    ensures copiers { IfOk result (λ memory. vec_len memory.copier_parts.takers ≡ plan.copiers) }
    ensures room { IfOk result (HasRoom plan.copiers plan.cap serials) }
{
    let Plan {
        alloc,
        copiers,
        cap,
        most,
    } = plan;
    let division = Division::new(copiers, cap);
    let hold = division.pages_a_hold();
    let list = VecDeque::with_capacity(alloc, hold)?;
    let gathered = VecDeque::with_capacity(alloc, hold)?;
    let joined = reserve_joined(alloc, copiers)?;
    let serials = empty_lists(alloc, copiers, serials)?;
    let started = Vec::with_capacity(alloc, copiers)?;
    let (copier_parts, taker) = open_queues(rt, alloc, base, division, serials, started).or(Err(
        AllocError,
    ))?;
    Ok(Memory {
        copier_parts,
        copies: Copies { taker, gathered },
        pages: Pages {
            division,
            list,
            left: most,
        },
        joined,
    })
}

/// Takes the memory for what this many copiers hand back.
fn reserve_joined(alloc: Global, copiers: usize) -> Result<CopierResults, AllocError>
    ensures { IfOk result (IsEmpty copiers) }
{
    Ok(CopierResults {
        takers: Vec::with_capacity(alloc, copiers)?,
        lists: Vec::with_capacity(alloc, copiers)?,
        whole: true,
    })
}

/// This many empty lists, each with room for this many serials.
fn empty_lists(
    alloc: Global,
    copiers: usize,
    serials: usize,
) -> Result<Vec<Vec<Serial>>, AllocError>
    ensures empty { IfOk result (λ lists. (vec_len lists ≡ copiers) × All (λ list. list.items ≡ []) lists.items) }
    ensures room { IfOk result (λ lists. All (λ list. vec_capacity list ≡ serials) lists.items) }
{
    let mut lists = Vec::with_capacity(alloc, copiers)?;
    for _copier in 0..copiers {
        lists.push_reserved(Vec::with_capacity(alloc, serials)?);
    }
    Ok(lists)
}

/// Opens both queues, for batches and with room for pages and copies as this division has them. Each copier gets one of the lists of
/// serials, and those that are started have room in the other list.
fn open_queues<R>(
    rt: &R,
    alloc: Global,
    base: Serial,
    division: Division,
    serials: Vec<Vec<Serial>>,
    copiers: Vec<Copier>,
) -> Result<(CopierParts, DoneTaker), HandError>
    requires { 0 < vec_len serials }
    ensures giver { IfOk result (λ opened. IsFresh base opened.0.giver) }
    ensures takers { IfOk result (λ opened. (vec_len opened.0.takers ≡ vec_len serials) × All (IsUnused opened.0.giver.hand_over) opened.0.takers.items) }
    ensures senders { IfOk result (λ opened. (vec_len opened.0.senders ≡ vec_len serials) × All IsUnsent opened.0.senders.items) }
    ensures lists { IfOk result (λ opened. (opened.0.serials ≡ serials) × (opened.0.copiers ≡ copiers)) }
    ensures copies { IfOk result (λ opened. has_ended opened.1 ≡ false) }
    ensures most { IfOk result (λ opened. opened.0.giver.most ≡ division.most) }
    ensures room { IfOk result (λ opened. (opened.0.giver.room ≡ division.room / division.most) × (opened.1.room ≡ division.room / division.most)) }
    ensures sent { IfOk result (λ opened. All (λ s. s.most ≡ division.most) opened.0.senders.items) }
{
    let Division { room, most, .. } = division;
    let many = serials.len();
    let (giver, takers) = open_in_batches(rt, alloc, base, many, room, most)?;
    let (senders, copies) = done_open_in_batches(rt, alloc, many, room, most)?;
    let copier_parts = CopierParts {
        giver,
        takers,
        senders,
        serials,
        copiers,
    };
    Ok((copier_parts, copies))
}
