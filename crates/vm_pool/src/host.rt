//! A host of virtual machines: a zone, the guests that have blocks of it, and the host's own small pages.

use crate::WORDS;
use crate::block::Block;
use crate::plan::Plan;
use crate::small_pages::SmallPage;
use crate::supply::Supply;
use crate::tally::Tally;
use anyhow::{Context, Result};
use rand_core::Rng;
use rand_pcg::Pcg32;
use std::alloc::Global;
use std::mem::replace;
use std::time::{Clock, Duration, Instant};
use zone_core::{
    Address, BareZone, ClientNo, Order, SpaceNo, VPage, WordOf, ZoneError, ZoneNo, ZoneSize,
};

/// A host on a day.
#[derive(Drop)]
pub struct Host {
    pub zone: BareZone<WORDS>,
    supply: Supply,
    plan: Plan,
    day: u32,
    guests: Vec<Guest>,
    guest_draws: Pcg32,
    pub small_pages: Vec<SmallPage>,
    /// The addresses at which no small page is mapped.
    pub unused: Vec<Address>,
    /// What was stored in the latest small page.
    pub stored: u64,
    pub page_draws: Pcg32,
    /// As which client of the zone the host makes its calls.
    pub client: ClientNo,
    /// The word of each small page in which something is stored.
    pub word: WordOf<WORDS>,
    pub tally: Tally,
    /// How long the requests for a block took. At the end the shortest come first.
    pub latencies: Vec<Duration>,
}

/// A guest that is there.
#[derive(Drop)]
struct Guest {
    blocks: Vec<Block>,
    /// The day on which it leaves.
    leaves: u32,
}

impl Host {
    /// A host without guests and small pages, over a zone whose journal takes no memory. Unmovable pages are mapped apart from the others.
    pub fn open(alloc: Global, size: ZoneSize, supply: Supply) -> Result<Self> {
        let number = ZoneNo::new(0).context("no zone has this number")?;
        let mut zone = BareZone::open_sized(alloc, number, size, None)?;
        zone.set_apart(true);
        Ok(Host {
            zone,
            supply,
            plan: Plan::of(size.blocks.saturating_mul(512)),
            day: 0,
            guests: Vec::new(alloc),
            guest_draws: Pcg32::new(2, 7),
            small_pages: Vec::new(alloc),
            unused: addresses(alloc, size.vpages)?,
            stored: 0,
            page_draws: Pcg32::new(1, 5),
            client: ClientNo::new(0).context("no client has this number")?,
            word: WordOf::new(511).context("no word has this number")?,
            tally: Tally::default(),
            latencies: Vec::new(alloc),
        })
    }

    /// Lets guests come and go day by day. At the end no guest and no small page is left.
    pub fn pass_days<R: Clock>(&mut self, rt: &R, alloc: Global) -> Result<()> {
        self.supply.prepare(&mut self.zone)?;
        for day in 0..self.plan.days {
            self.day = day;
            self.pass_day(rt, alloc)?;
        }
        self.let_leave(alloc, u32::MAX)?;
        self.unmap_down_to(0)?;
        self.latencies.sort_unstable();
        self.tally.moved = self.zone.audit()?.moved;
        Ok(())
    }

    /// In the morning guests leave, and the host is busy: its small pages take nearly all frames. Those that are left then lie all over the
    /// zone, and other guests come.
    fn pass_day<R: Clock>(&mut self, rt: &R, alloc: Global) -> Result<()> {
        self.let_leave(alloc, self.day)?;
        self.map_until_free(self.plan.spare)?;
        self.unmap_down_to(self.plan.small_pages)?;
        for _guest in 0..self.plan.guests {
            self.receive(rt, alloc)?;
        }
        Ok(())
    }

    /// Receives a guest. One that gets fewer blocks than it wants goes without.
    fn receive<R: Clock>(&mut self, rt: &R, alloc: Global) -> Result<()> {
        let wanted = 1 + self.guest_draws.next_u32() % 4;
        let days = 1 + self.guest_draws.next_u32() % 2;
        let mut guest = Guest {
            blocks: Vec::new(alloc),
            leaves: self.day.saturating_add(days),
        };
        let is_served = self.serve(rt, &mut guest, wanted)?;
        self.tally.guests.add(u64::from(is_served), 1);
        if !is_served {
            return self.take_back(&guest);
        }
        Ok(self.guests.push(guest)?)
    }

    /// Gives a guest so many blocks, which it fills. False where one of them can't be had.
    fn serve<R: Clock>(&mut self, rt: &R, guest: &mut Guest, wanted: u32) -> Result<bool> {
        for _block in 0..wanted {
            let Some(block) = self.ask(rt)? else {
                return Ok(false);
            };
            block.fill(&mut self.zone)?;
            guest.blocks.push(block)?;
        }
        Ok(true)
    }

    /// Asks for a block, and notes how long the answer takes. After that what can be done for the next request is done.
    fn ask<R: Clock>(&mut self, rt: &R) -> Result<Option<Block>> {
        let start = Instant::now(rt)?;
        let taken = self.supply.take(&mut self.zone);
        self.latencies.push(start.elapsed(rt)?)?;
        self.supply.prepare(&mut self.zone)?;
        match taken {
            Ok(first) => {
                let number = self.tally.blocks.saturating_add(1);
                self.tally.blocks = number;
                Ok(Some(Block { first, number }))
            }
            Err(ZoneError::NoBlock) => Ok(None),
            Err(error) => Err(error.into()),
        }
    }

    /// Each guest whose day has come leaves.
    fn let_leave(&mut self, alloc: Global, day: u32) -> Result<()> {
        for guest in replace(&mut self.guests, Vec::new(alloc)) {
            if guest.leaves <= day {
                self.take_back(&guest)?;
            } else {
                self.guests.push(guest)?;
            }
        }
        Ok(())
    }

    /// Takes the blocks of a guest back, and sees whether its words are there.
    fn take_back(&mut self, guest: &Guest) -> Result<()> {
        for block in &guest.blocks {
            let right = block.count_right(&mut self.zone)?;
            self.tally.block_words.add(right, Block::WORDS);
            self.zone.give_order(block.first, Order::of_pageblock())?;
        }
        Ok(())
    }
}

/// So many addresses of the zone's one space.
fn addresses(alloc: Global, count: u32) -> Result<Vec<Address>> {
    let space = SpaceNo::new(0).context("no space has this number")?;
    let mut addresses = Vec::new(alloc);
    for number in 0..count {
        let vpage = VPage::in_any_zone(number).context("no virtual page has this number")?;
        addresses.push(Address { space, vpage })?;
    }
    Ok(addresses)
}
