ghost use Rattle.std.specs.Prelude.{◌≡◌, ◌≢◌, ℕ, [], Some, IsTrue, IfOk, IfErr, OnOk, OnErr};
ghost use Rattle.std.specs.Int.RustNames.{bit_and};
ghost use Rattle.frame_core.specs.declared.record.Record.TheVariants.{Map, Share, Unmap, Store, Load, Pin, Unpin};
ghost use Rattle.frame_core.specs.PageFlags.{is_unmovable};
ghost use Rattle.state_core.specs.Access.{access_refusal, stored};
ghost use Rattle.state_core.specs.Calls.{after, answer_of, is_of_client, record_of, refusal_of};
ghost use Rattle.state_core.specs.Mapping.{map_refusal, map_at_refusal};
ghost use Rattle.state_core.specs.Pinning.{pin_refusal, unpin_refusal, pinned, unpinned};
ghost use Rattle.state_core.specs.Sharing.{share_refusal, shared as shared_by};
ghost use Rattle.state_core.specs.Unmapping.{unmap_refusal, unmapped};
ghost use Rattle.state_core.specs.ZoneState.{ZoneState};
ghost use Rattle.client_core.specs.Calls.{HasMade, IsAccepted, IsFailed, leaving, loading, mapping, mapping_free};
ghost use Rattle.client_core.specs.Receipts.{AreSince, with_receipt};
ghost use Rattle.hand_core.specs.Told.{pair_of};

mod bulk;

use crate::error::ClientError;
use crate::making::{of_client, retry_while_moving};
use crate::receipts::Receipts;
use crate::telling::{NoSlip, Telling};
use frame_core::{Address, ClientNo, FrameNo, GhostList, PageFlags, Record, WordNo};
use hand_core::Slip;
use round_core::{Keeping, KeptIn};
use std::alloc::{AllocError, Global};
use std::marker::{Model, PhantomData};
use std::sync::Wait;
use zone_core::{ClientCall, Opening, ZoneAnswer, ZoneCall, ZoneError};

/// Makes calls of a shared zone under one number, and has a receipt for each call that was accepted, its record, or one for each word
/// of a call that reads or writes several.
///
/// `T` says where the receipts go. Those of a `Client` are kept in a list that grows with each call. Those of an `UnrecordedClient`
/// exist in the proofs alone, so such a client can make calls for ever.
///
/// Each call takes the memory for its receipts first, so the error `Memory` comes before any refusal of the zone. Each call says
/// what the zone may refuse it as. A call that isn't accepted leaves the client as it was. A call whose page is moving waits until
/// the move has ended; `pin` and `unpin` never wait.
///
/// Where `J` says so, the client has the slip of a pair, and each receipt is written on it together with the stub, which is under the
/// lock of the zone. So what is on the stub are the client's receipts since it has the slip, and nobody else can write on it.
#[derive(Drop)]
pub struct Client<J: Telling = NoSlip, T: Receipts = Vec<Record>> {
    number: ClientNo,
    receipts: T,
    slip: Option<Slip>,
    of: PhantomData<J>,
}

/// A client whose receipts are unrecorded: they exist in the proofs alone.
pub type UnrecordedClient = Client<NoSlip, GhostList<Record>>;

impl<J: Telling, T: Receipts> Model for Client<J, T> {
    ghost use Rattle.std.specs.Prelude.{◌≡◌};
    ghost use Rattle.hand_core.specs.Told.{pair_of};
    ghost use Rattle.client_core.specs.Receipts.{Client as Seen, AreSince};

    ghost Value = { Seen };

    ghost view = { λ c. record { number = c.number; receipts = T.items c.receipts } };

    ghost invariant = { λ c. (pair_of c.slip ≡ J.pair) × AreSince J.before c.slip (T.items c.receipts) };
}

impl Client {
    /// A client that has made no call, and has no slip.
    pub fn new(alloc: Global, number: ClientNo) -> Client
        ensures { result ≡ record { number = number; receipts = [] } }
    {
        Client {
            number,
            receipts: Vec::new(alloc),
            slip: None,
            of: PhantomData,
        }
    }

    /// A copy of the client with the same receipts, or an error where there is no memory for them.
    pub fn try_clone(&self) -> Result<Client, AllocError>
        ensures { IfOk result (λ client. client ≡ self.now) }
    {
        Ok(Client {
            number: self.number,
            receipts: self.receipts.clone()?,
            slip: None,
            of: PhantomData,
        })
    }
}

impl UnrecordedClient {
    /// A client that has made no call, and has no slip. Its receipts are unrecorded. No call takes memory.
    pub fn unrecorded(number: ClientNo) -> UnrecordedClient
        ensures { result ≡ record { number = number; receipts = [] } }
    {
        Client {
            number,
            receipts: GhostList::new(),
            slip: None,
            of: PhantomData,
        }
    }
}

impl<T: Receipts> Client<NoSlip, T> {
    /// Gives the client a slip with nothing on it.
    pub fn with_slip<J: Telling>(self, slip: Slip) -> Client<J, T>
        requires pair { J.pair ≡ Some slip.pair }
        requires before { J.before ≡ self.receipts }
        requires none { slip.records ≡ [] }
        ensures { result ≡ self }
    {
        let Client {
            number,
            receipts,
            ..
        } = self;
        Client {
            number,
            receipts,
            slip: Some(slip),
            of: PhantomData,
        }
    }
}

impl<J: Telling> Client<J> {
    /// The records of the accepted calls, the oldest first.
    pub fn receipts(&self) -> &[Record]
        ensures { result.now ≡ self.now.receipts }
    {
        &self.receipts
    }
}

impl<J: Telling, T: Receipts> Client<J, T> {
    /// Takes the slip from the client, if it has one. What is on it are the receipts since the client has had it.
    pub fn into_parts(self) -> (Client<NoSlip, T>, Option<Slip>)
        ensures client { result.0 ≡ self }
        ensures pair { pair_of result.1 ≡ J.pair }
        ensures since { AreSince J.before result.1 self.receipts }
    {
        let Client {
            number,
            receipts,
            slip,
            ..
        } = self;
        let client = Client {
            number,
            receipts,
            slip: None,
            of: PhantomData,
        };
        (client, slip)
    }

    /// The number of the client.
    pub fn number(&self) -> ClientNo
        ensures { result ≡ self.now.number }
    {
        self.number
    }

    /// Makes a call, and answers what the zone does. The receipt is the record that the call leaves.
    ///
    /// The zone refuses as the method of the call's name says.
    pub fn make<K: Keeping, Z: Opening, R: Wait>(
        &mut self,
        rt: &R,
        shared: &KeptIn<K, Z>,
        call: ClientCall,
    ) -> Result<ZoneAnswer, ClientError>
        requires allows { K.allows self.old.number J.pair }
        ensures ok { IfOk result (λ answer. HasMade self.old call answer self.new) }
        ensures err { OnErr result (self.new ≡ self.old) }
        ensures refused { IfErr result (IsFailed T.takes_memory (refusal_of call)) }
        ensures there { IfErr result (λ error. error ≢ ClientError.Zone ZoneError.Moving) }
    {
        self.receipts.make_room(1)?;
        let (answer, receipt) = retry_while_moving(rt, shared, &mut self.slip, self.number, call)?;
        self.receipts.add(receipt);
        Ok(answer)
    }

    /// Makes a call to which the zone answers nothing.
    fn make_done<K: Keeping, Z: Opening, R: Wait>(
        &mut self,
        rt: &R,
        shared: &KeptIn<K, Z>,
        call: ZoneCall,
    ) -> Result<(), ClientError>
        requires allows { K.allows self.old.number J.pair }
        requires of_client { IsTrue (is_of_client call) }
        requires done { (zone : ZoneState) → answer_of call zone ≡ ZoneAnswer.Done }
        ensures ok { OnOk result (self.new ≡ with_receipt self.old (record_of call self.old.number ZoneAnswer.Done)) }
        ensures accepted { IfOk result (IsAccepted (refusal_of call) (leaving (after call self.old.number))) }
        ensures err { OnErr result (self.new ≡ self.old) }
        ensures refused { IfErr result (IsFailed T.takes_memory (refusal_of call)) }
        ensures there { IfErr result (λ error. error ≢ ClientError.Zone ZoneError.Moving) }
    {
        self.make(rt, shared, of_client(call))?;
        Ok(())
    }

    /// Makes an address name a fresh page in the lowest free frame, or in one by its pageblock where unmovable pages are mapped apart, and
    /// answers this frame. The receipt has the number of the page. The flags must not have DIRTY.
    ///
    /// The zone refuses as Range, JournalFull, Occupied or NoFrame.
    pub fn map<K: Keeping, Z: Opening, R: Wait>(
        &mut self,
        rt: &R,
        shared: &KeptIn<K, Z>,
        address: Address,
        flags: PageFlags,
    ) -> Result<FrameNo, ClientError>
        requires allows { K.allows self.old.number J.pair }
        requires clean { bit_and flags.0 2 ≡ 0 }
        ensures ok { IfOk result (λ frame. (page : ℕ) × (self.new ≡ with_receipt self.old (Map self.old.number address page))
            × IsAccepted (λ zone. map_refusal zone address) (mapping_free self.old.number address (is_unmovable flags) frame) page) }
        ensures err { OnErr result (self.new ≡ self.old) }
        ensures refused { IfErr result (IsFailed T.takes_memory (λ zone. map_refusal zone address)) }
    {
        let unmovable = flags.is_unmovable();
        let call = of_client(ZoneCall::Map { address, unmovable });
        let ZoneAnswer::Mapped { frame, .. } = self.make(rt, shared, call)? else {
            unreachable!()
        };
        Ok(frame)
    }

    /// Makes an address name a fresh page in a given frame. The receipt has the number of the page. The flags must not have DIRTY.
    ///
    /// The zone refuses as Range, JournalFull, Occupied or NoFrame.
    pub fn map_at<K: Keeping, Z: Opening, R: Wait>(
        &mut self,
        rt: &R,
        shared: &KeptIn<K, Z>,
        address: Address,
        flags: PageFlags,
        frame: FrameNo,
    ) -> Result<(), ClientError>
        requires allows { K.allows self.old.number J.pair }
        requires clean { bit_and flags.0 2 ≡ 0 }
        ensures ok { OnOk result ((page : ℕ) × (self.new ≡ with_receipt self.old (Map self.old.number address page))
            × IsAccepted (λ zone. map_at_refusal zone address frame) (mapping self.old.number address (is_unmovable flags) frame) page) }
        ensures err { OnErr result (self.new ≡ self.old) }
        ensures refused { IfErr result (IsFailed T.takes_memory (λ zone. map_at_refusal zone address frame)) }
    {
        let call = ZoneCall::MapAt {
            address,
            unmovable: flags.is_unmovable(),
            frame,
        };
        self.make(rt, shared, of_client(call))?;
        Ok(())
    }

    /// Makes an alias name the page of an address too.
    ///
    /// The zone refuses as Range, JournalFull, Unmapped, Occupied or ShareFull.
    pub fn share<K: Keeping, Z: Opening, R: Wait>(
        &mut self,
        rt: &R,
        shared: &KeptIn<K, Z>,
        address: Address,
        alias: Address,
    ) -> Result<(), ClientError>
        requires allows { K.allows self.old.number J.pair }
        ensures ok { OnOk result (self.new ≡ with_receipt self.old (Share self.old.number address alias)) }
        ensures accepted { IfOk result (IsAccepted (λ zone. share_refusal zone address alias) (leaving (λ zone. shared_by zone self.old.number address alias))) }
        ensures err { OnErr result (self.new ≡ self.old) }
        ensures refused { IfErr result (IsFailed T.takes_memory (λ zone. share_refusal zone address alias)) }
        ensures there { IfErr result (λ error. error ≢ ClientError.Zone ZoneError.Moving) }
    {
        self.make_done(rt, shared, ZoneCall::Share { address, alias })
    }

    /// Makes an address name no page any more.
    ///
    /// The zone refuses as JournalFull, Unmapped or Pinned.
    pub fn unmap<K: Keeping, Z: Opening, R: Wait>(
        &mut self,
        rt: &R,
        shared: &KeptIn<K, Z>,
        address: Address,
    ) -> Result<(), ClientError>
        requires allows { K.allows self.old.number J.pair }
        ensures ok { OnOk result (self.new ≡ with_receipt self.old (Unmap self.old.number address)) }
        ensures accepted { IfOk result (IsAccepted (λ zone. unmap_refusal zone address) (leaving (λ zone. unmapped zone self.old.number address))) }
        ensures err { OnErr result (self.new ≡ self.old) }
        ensures refused { IfErr result (IsFailed T.takes_memory (λ zone. unmap_refusal zone address)) }
        ensures there { IfErr result (λ error. error ≢ ClientError.Zone ZoneError.Moving) }
    {
        self.make_done(rt, shared, ZoneCall::Unmap { address })
    }

    /// Reads a word of the page that an address names.
    ///
    /// The zone refuses as JournalFull or Unmapped.
    pub fn load<K: Keeping, Z: Opening, R: Wait>(
        &mut self,
        rt: &R,
        shared: &KeptIn<K, Z>,
        address: Address,
        word: WordNo,
    ) -> Result<u64, ClientError>
        requires allows { K.allows self.old.number J.pair }
        ensures ok { IfOk result (λ value. self.new ≡ with_receipt self.old (Load self.old.number address word value)) }
        ensures accepted { IfOk result (IsAccepted (λ zone. access_refusal zone address) (loading self.old.number address word)) }
        ensures err { OnErr result (self.new ≡ self.old) }
        ensures refused { IfErr result (IsFailed T.takes_memory (λ zone. access_refusal zone address)) }
        ensures there { IfErr result (λ error. error ≢ ClientError.Zone ZoneError.Moving) }
    {
        let call = of_client(ZoneCall::Load { address, word });
        let ZoneAnswer::Value(value) = self.make(rt, shared, call)? else {
            unreachable!()
        };
        Ok(value)
    }

    /// Writes a word of the page that an address names.
    ///
    /// The zone refuses as JournalFull or Unmapped.
    pub fn store<K: Keeping, Z: Opening, R: Wait>(
        &mut self,
        rt: &R,
        shared: &KeptIn<K, Z>,
        address: Address,
        word: WordNo,
        value: u64,
    ) -> Result<(), ClientError>
        requires allows { K.allows self.old.number J.pair }
        ensures ok { OnOk result (self.new ≡ with_receipt self.old (Store self.old.number address word value)) }
        ensures accepted { IfOk result (IsAccepted (λ zone. access_refusal zone address) (leaving (λ zone. stored zone self.old.number address word value))) }
        ensures err { OnErr result (self.new ≡ self.old) }
        ensures refused { IfErr result (IsFailed T.takes_memory (λ zone. access_refusal zone address)) }
        ensures there { IfErr result (λ error. error ≢ ClientError.Zone ZoneError.Moving) }
    {
        let call = ZoneCall::Store {
            address,
            word,
            value,
        };
        self.make_done(rt, shared, call)
    }

    /// Pins the page that an address names, also while the page is moving.
    ///
    /// The zone refuses as JournalFull, Unmapped or PinFull.
    pub fn pin<K: Keeping, Z: Opening, R: Wait>(
        &mut self,
        rt: &R,
        shared: &KeptIn<K, Z>,
        address: Address,
    ) -> Result<(), ClientError>
        requires allows { K.allows self.old.number J.pair }
        ensures ok { OnOk result (self.new ≡ with_receipt self.old (Pin self.old.number address)) }
        ensures accepted { IfOk result (IsAccepted (λ zone. pin_refusal zone address) (leaving (λ zone. pinned zone self.old.number address))) }
        ensures err { OnErr result (self.new ≡ self.old) }
        ensures refused { IfErr result (IsFailed T.takes_memory (λ zone. pin_refusal zone address)) }
    {
        self.make_done(rt, shared, ZoneCall::Pin { address })
    }

    /// Takes a pin off the page that an address names, also while the page is moving.
    ///
    /// The zone refuses as JournalFull, Unmapped or NotPinned.
    pub fn unpin<K: Keeping, Z: Opening, R: Wait>(
        &mut self,
        rt: &R,
        shared: &KeptIn<K, Z>,
        address: Address,
    ) -> Result<(), ClientError>
        requires allows { K.allows self.old.number J.pair }
        ensures ok { OnOk result (self.new ≡ with_receipt self.old (Unpin self.old.number address)) }
        ensures accepted { IfOk result (IsAccepted (λ zone. unpin_refusal zone address) (leaving (λ zone. unpinned zone self.old.number address))) }
        ensures err { OnErr result (self.new ≡ self.old) }
        ensures refused { IfErr result (IsFailed T.takes_memory (λ zone. unpin_refusal zone address)) }
    {
        self.make_done(rt, shared, ZoneCall::Unpin { address })
    }
}
