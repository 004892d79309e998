ghost use Rattle.giop_streams.specs.SeveralParts.{AreFew, BelongsToOne, EndsOnce, GivesEnded, KeepsOpen, SaysByOpen, TellsEarliest};

/// A law: in octets that are whole parts, none of which is refused, each Fragment is a part of exactly one message in
/// several parts, and each first part's message is open or ended by exactly one Fragment. The messages are those whose
/// last part is there, in the order of their last parts; the unfinished ones are those that were begun and not ended, in
/// the order of their first parts; what a further part says follows from these.
pub fn parts_belong_to_messages()
    ensures one { BelongsToOne }
    ensures once { EndsOnce }
    ensures ended { GivesEnded }
    ensures unended { KeepsOpen }
    ensures says { SaysByOpen }
    ensures few { AreFew }
    ensures earliest { TellsEarliest }
{}
