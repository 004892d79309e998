// Words go out, and replies to them.
ghost use Rattle.nodes_world.specs.Happenings as happenings;

use crate::state::State;
use coordinator::Said;
use nodes_lines::{tell_back, tell_sent};
use nodes_world::Content;
use ots_model::tree::Outward;
use ots_world::WorldFault;
use recovery_coord::Outbox;

impl State {
    ghost use Rattle.nodes_state.specs.Shown.{HasNames, shown};
    ghost use Rattle.nodes_state.specs.Does.{Does, StaysSo};

    /// A word goes out from the seat at a place.
    pub fn request(
        &mut self,
        lines: &mut Vec<u8>,
        place: u32,
        outward: Outward,
    ) -> Result<(), WorldFault>
        requires names { HasNames self.old }
        ensures does { Does (happenings.requests place outward (shown self.old)) (shown self.new)
            lines.old.items lines.new.items result }
        ensures same { StaysSo self.old self.new }
    {
        let named = self.names.referred(outward.to.bytes());
        let word = outward.word;
        let content = Content::Request {
            from: place,
            outward,
        };
        let number = self.messages.send(content, false)?;
        if let Some(named) = named {
            tell_sent(lines, number, word, named.name)?;
        }
        Ok(())
    }

    /// Words go out in order from the seat at a place.
    pub fn send_words(
        &mut self,
        lines: &mut Vec<u8>,
        place: u32,
        words: Outbox,
    ) -> Result<(), WorldFault>
        requires names { HasNames self.old }
        ensures does { Does (happenings.requests_all place words.words (shown self.old)) (shown self.new)
            lines.old.items lines.new.items result }
        ensures same { StaysSo self.old self.new }
    {
        let mut words = words;
        while let Some(outward) = words.take() {
            self.request(lines, place, outward)?;
        }
        Ok(())
    }

    /// The reply to a request goes out.
    pub fn reply(&mut self, lines: &mut Vec<u8>, request: u32, said: Said) -> Result<(), WorldFault>
        ensures does { Does (happenings.replies request said (shown self.old)) (shown self.new)
            lines.old.items lines.new.items result }
        ensures same { StaysSo self.old self.new }
    {
        tell_back(lines, self.messages.next_number(), request, &said)?;
        self.messages.send(Content::Reply { request, said }, false)?;
        Ok(())
    }
}
