ghost use Rattle.std.specs.Prelude.{◌≡◌, ℕ, ◌<◌, length, map, All, IfOk, None};
ghost use Rattle.swap_base.specs.Sizes.{first_beyond};
ghost use Rattle.swap_base.specs.Lending.{lender_limits};
ghost use Rattle.swap_link.specs.Harbor.{new_channel, channel_of, IsFresh};

use crate::channel::Channel;
use std::alloc::Global;
use std::marker::Model;
use swap_base::{Geometry, Lender, LenderSpec, Link, NoMemory};
use swap_lender::LenderCore;
use swap_wire::{Fabric, Gave, Hosted, Msg, Sent, Took};

/// The fabric in memory: lenders, and one present link to each. All memory is taken at `make`.
#[derive(Drop)]
pub struct Harbor {
    geometry: Geometry,
    channels: Vec<Channel>,
    page: Vec<u8>,
}

impl Model for Harbor {
    ghost use Rattle.std.specs.Prelude.{◌≡◌, All, length};
    ghost use Rattle.swap_link.specs.Channel.{Channel as Linked};
    ghost use Rattle.swap_link.specs.Harbor.{Harbor as Lenders};

    ghost Value = { Lenders };

    ghost view = { λ h. record { sizes = h.geometry; channels = h.channels.items } };

    ghost invariant = { λ h. All (λ (c : Linked). c.sizes ≡ h.geometry) h.channels.items
        × (length h.page.items ≡ h.geometry.page_bytes) };
}

impl Harbor {
    /// A lender for each spec, with no links. Specs are within their limits.
    pub fn make(
        alloc: Global,
        geometry: &Geometry,
        specs: &[LenderSpec],
    ) -> Result<Harbor, NoMemory>
        requires { All (λ spec. first_beyond (lender_limits spec) ≡ None) specs.now }
        ensures harbor { IfOk result
            (λ h. h
            ≡ record {
              sizes = geometry.now;
              channels = map (λ spec. new_channel geometry.now spec) specs.now;
            }) }
        ensures fresh { IfOk result
            (λ h. IsFresh h (record { sizes = geometry.now; lenders = length specs.now })) }
    {
        geometry.limits();
        let mut channels = Vec::new(alloc);
        for spec in specs {
            let channel = Channel::make(alloc, geometry, *spec)?;
            if channels.push(channel).is_err() {
                return Err(NoMemory);
            }
        }
        let Ok(page) = vec![in alloc; 0; geometry.page_bytes() as usize] else {
            return Err(NoMemory);
        };
        Ok(Harbor {
            geometry: *geometry,
            channels,
            page,
        })
    }

    /// A lender, for reading.
    pub fn lender(&self, lender: Lender) -> &LenderCore
        requires { lender.0 < length self.now.channels }
        ensures { result.now ≡ (channel_of self.now lender).lender }
    {
        let channel = &self.channels[lender.0 as usize];
        channel.lender()
    }
}

impl Fabric for Harbor {
    ghost use Rattle.std.specs.Prelude.{◌≡◌};
    ghost use Rattle.swap_link.specs.Harbor.{of_harbor, Moves, IsFresh, KeepsAt, OwesAt};
    ghost use Rattle.swap_link.specs.lemmas.HarborLaws;

    ghost of = { of_harbor };

    ghost moves = { Moves };

    ghost fresh = { IsFresh };

    ghost keeps = { KeepsAt };

    ghost owes = { OwesAt };

    ghost answers = { λ page given. page ≡ given };

    fn connect(&mut self, lender: Lender, link: Link) {
        let channel = &mut self.channels[lender.0 as usize];
        channel.keeps();
        channel.connect(link, &mut self.page);
    }

    fn send(&mut self, lender: Lender, msg: &Msg, page: &[u8]) -> Sent {
        let channel = &mut self.channels[lender.0 as usize];
        channel.keeps();
        channel.send(msg, page)
    }

    fn take(&mut self, lender: Lender, page: &mut [u8]) -> Took {
        let channel = &mut self.channels[lender.0 as usize];
        channel.keeps();
        channel.take(page)
    }

    fn end(&mut self, lender: Lender) {
        let channel = &mut self.channels[lender.0 as usize];
        channel.keeps();
        channel.end();
    }

    fn give(&mut self, lender: Lender) -> Gave {
        let channel = &mut self.channels[lender.0 as usize];
        channel.keeps();
        channel.give(&mut self.page)
    }

    fn cut(&mut self, lender: Lender, to_lender: u32, to_device: u32) -> bool {
        let channel = &mut self.channels[lender.0 as usize];
        channel.keeps();
        channel.cut(to_lender, to_device)
    }

    fn crash(&mut self, lender: Lender) -> bool {
        let channel = &mut self.channels[lender.0 as usize];
        channel.keeps();
        channel.crash();
        true
    }

    fn host(&mut self, lender: Lender, used: u32, word: u64) -> Option<Hosted> {
        let channel = &mut self.channels[lender.0 as usize];
        channel.keeps();
        Some(channel.host(used, word, &mut self.page))
    }

    ghost fresh_is_of = { λ h o f. f.is };

    ghost moves_keep_of = { HarborLaws.moves_keep_of };

    ghost taken_fits = { HarborLaws.taken_fits };

    ghost write_is_kept = { HarborLaws.write_is_kept };

    ghost kept_until = { HarborLaws.kept_until };

    ghost new_link_owes_none = { HarborLaws.new_link_owes_none };

    ghost read_is_owed = { HarborLaws.read_is_owed };

    ghost page_was_owed = { HarborLaws.page_was_owed };

    ghost page_answers = { HarborLaws.page_answers };

    ghost owed_until = { HarborLaws.owed_until };
}
