// The words that are told again.
ghost use Rattle.std.specs.Prelude.{◌≡◌, ◌++◌, map, IfOk, IsOk, OnOk, OnErr};
ghost use Rattle.std.specs.List.{filter_map};
ghost use Rattle.std.specs.Option.{option_to_list};
ghost use Rattle.recovery_coord.specs.Telling as telling;

use crate::held::{Due, Held, Party};
use crate::outbox::Outbox;
use ots_model::tree::{Outward, Word};
use ots_model::{CallNumber, PhaseWord, Receipt};
use std::alloc::{AllocError, Global};

/// The slot in the number of a call that tells the word of a record again: that of no tree.
pub(crate) const RETOLD_SLOT: u32 = u32::MAX;

/// A record whose words are told again in this life.
#[derive(Clone, Copy)]
pub(crate) struct Teller {
    pub life: u32,
    pub place: u32,
    pub decided: bool,
}

/// Tells each complete record again from the beginning, and puts the words of all behind those of an outbox. Where memory is
/// wanted, the records behind that are told again too, without their words.
pub(crate) fn tell_all(
    alloc: Global,
    life: u32,
    records: &mut [Held],
    out: &mut Outbox,
) -> Result<(), AllocError>
    ensures records { records.new ≡ map telling.retold records.old }
    ensures ok { OnOk result (out.new.words ≡ out.old.words ++ telling.words life records.new) }
    ensures more { telling.IsMore out.old.words out.new.words }
    ensures room { out.new.room ≡ out.old.room }
{
    let mut told = Ok(());
    for held in records.iter_mut() {
        told = tell_record(alloc, life, held, told, out);
    }
    told
}

/// Tells a complete record again from the beginning, and puts the words of a record behind those of an outbox, where those
/// before it were told.
fn tell_record(
    alloc: Global,
    life: u32,
    held: &mut Held,
    before: Result<(), AllocError>,
    out: &mut Outbox,
) -> Result<(), AllocError>
    ensures retold { held.new ≡ telling.retold held.old }
    ensures before { OnOk result (IsOk before) }
    ensures ok { OnOk result (out.new.words ≡ out.old.words ++ telling.words_of life held.new) }
    ensures more { telling.IsMore out.old.words out.new.words }
    ensures room { out.new.room ≡ out.old.room }
{
    held.recall();
    before?;
    tell_words(alloc, life, held, out)
}

/// The words of a record, behind those of an outbox. Its registrations are looked at only where one has a word to tell.
fn tell_words(alloc: Global, life: u32, held: &Held, out: &mut Outbox) -> Result<(), AllocError>
    ensures ok { OnOk result (out.new.words ≡ out.old.words ++ telling.words_of life held.now) }
    ensures more { telling.IsMore out.old.words out.new.words }
    ensures room { out.new.room ≡ out.old.room }
{
    let decided = held.kind.is_decided();
    if !held.parties.have_words(decided) {
        return Ok(());
    }
    let teller = Teller {
        life,
        place: held.place,
        decided,
    };
    teller.tell(alloc, held.parties.items(), out)
}

impl Teller {
    /// The words of the record's registrations, behind those of an outbox.
    fn tell(self, alloc: Global, parties: &[Party], out: &mut Outbox) -> Result<(), AllocError>
        ensures ok { OnOk result (out.new.words ≡ out.old.words
            ++ filter_map (telling.word_to self.life self.place self.decided) parties.now) }
        ensures more { telling.IsMore out.old.words out.new.words }
        ensures room { out.new.room ≡ out.old.room }
    {
        for party in parties {
            self.tell_one(alloc, party, out)?;
        }
        Ok(())
    }

    /// The word of a registration, behind those of an outbox.
    fn tell_one(self, alloc: Global, party: &Party, out: &mut Outbox) -> Result<(), AllocError>
        ensures ok { OnOk result (out.new.words ≡ out.old.words
            ++ option_to_list (telling.word_to self.life self.place self.decided party.now)) }
        ensures err { OnErr result (out.new.words ≡ out.old.words) }
        ensures room { out.new.room ≡ out.old.room }
    {
        let word = match self.word_to(alloc, party)? {
            Some(word) => word,
            None => return Ok(()),
        };
        out.push(word)
    }

    /// The word that a registration is told again, where there is one.
    fn word_to(self, alloc: Global, party: &Party) -> Result<Option<Outward>, AllocError>
        ensures { IfOk result (λ word. word ≡ telling.word_to self.life self.place self.decided party.now) }
    {
        match party.due {
            Due::Commit => {
                let receipt = Receipt {
                    place: self.place,
                    registration: party.index,
                };
                Ok(Some(self.outward(alloc, party, Word::Phase(PhaseWord::Commit), Some(receipt))?))
            }
            Due::Forget if self.decided => {
                Ok(Some(self.outward(alloc, party, Word::Forget, None)?))
            }
            _ => Ok(None),
        }
    }

    fn outward(
        self,
        alloc: Global,
        party: &Party,
        word: Word,
        receipt: Option<Receipt>,
    ) -> Result<Outward, AllocError>
        ensures { IfOk result (λ out. out ≡ telling.outward self.life self.place party.now word receipt) }
    {
        Ok(Outward {
            number: CallNumber {
                life: self.life,
                slot: RETOLD_SLOT,
                generation: u64::from(self.place),
                serial: party.index,
            },
            registration: party.index,
            to: party.to.copy(alloc)?,
            word,
            receipt,
        })
    }
}
