ghost use Rattle.std.specs.Iterator.{YieldsFirstRef, item_count};

use crate::links::Numbers;
use crate::registration::Registration;
use std::marker::Model;

/// The participants of a transaction, one after another. Contracts see those that are left.
#[derive(Drop)]
pub struct Walk<'a> {
    pub(crate) registrations: &'a [Registration],
    pub(crate) numbers: Numbers<'a>,
}

impl<'a> Model for Walk<'a> {
    ghost use Rattle.std.specs.Prelude.{List, length};
    ghost use Rattle.std.specs.List.{filter_map};
    ghost use Rattle.resource_votes.specs.Lists.{AreNumbers};
    ghost use Rattle.resource_votes.specs.Ballots.{numbered};
    ghost use Rattle.resource_votes.specs.declared.registration.Registration.{Registration as Registered};

    ghost Value = { List Registered };

    ghost view = { λ w. filter_map (numbered w.registrations.now) w.numbers };

    ghost invariant = { λ w. AreNumbers (length w.registrations.now) w.numbers };
}

impl<'a> Iterator for Walk<'a> {
    type Item = &'a Registration;

    ghost next_gives = { YieldsFirstRef (λ s. s) };

    ghost remaining = { item_count (λ s. s) };

    fn next(&mut self) -> Option<&'a Registration> {
        let number = self.numbers.next()?;
        self.registrations.get(number as usize - 1)
    }
}
