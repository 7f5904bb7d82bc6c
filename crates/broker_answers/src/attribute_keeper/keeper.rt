//! The keeper of attributes.

ghost use Rattle.std.specs.Prelude.{◌≡◌, [], slice_index_or, IfOk};
ghost use Rattle.broker_answers.specs.Objects.{objects_of};
ghost use Rattle.broker_answers.specs.Keeping.{action_in};

use crate::attribute_keeper::action::Action;
use crate::attribute_keeper::attributes::{
    find_actions, find_getters, operations_of, zero_replies,
};
use crate::attribute_keeper::kept::Kept;
use crate::{Outcome, Servant};
use position_checker::Accepted;
use std::alloc::{AllocError, Global};
use std::marker::Model;
use type_graph::Items;

/// A servant that keeps a tape for each attribute of each object: `_get_x` answers it, and `_set_x`
/// replaces it by its argument. Of the other operations those are answered whose frames say how: an
/// empty reply by an empty tape, and one of the same members as the request by the arguments. A
/// contract sees what the operations of each object do, and the tapes.
#[derive(Drop)]
pub struct Keeper {
    actions: Vec<Items<(u32, Action)>>,
    kept: Vec<Kept>,
}

impl Model for Keeper {
    ghost use Rattle.broker_answers.specs.Keeping.{Keeping, keeping};

    ghost Value = { Keeping };

    ghost view = { λ k. keeping k.actions.items k.kept.items };
}

fn row_deed(rows: &[(u32, Action)], number: u32) -> Action
    ensures { result ≡ action_in rows.now number }
{
    for (other, action) in rows {
        if *other == number {
            return *action;
        }
    }
    Action::Nothing
}

impl Keeper {
    ghost use Rattle.broker_answers.specs.Keeping.{first_keeping, tape_at, with_tape};

    /// A keeper of objects, which are pairs of a key and the place of an interface in the model of
    /// the accepted types. Each tape is one of zeros at first.
    ///
    /// # Errors
    /// Want of memory.
    pub fn new(
        alloc: Global,
        accepted: &Accepted,
        objects: &[(Vec<u8>, u32)],
    ) -> Result<Keeper, AllocError>
        ensures { IfOk result (λ keeper. keeper ≡ first_keeping accepted.now.model (objects_of objects.now)) }
    {
        let model = accepted.table().model();
        let mut actions = Vec::new(alloc);
        let mut kept = Vec::new(alloc);
        for (_, interface) in objects {
            let numbers = operations_of(model, *interface);
            let getters = find_getters(alloc, model, numbers)?;
            actions.push(find_actions(alloc, model, getters.as_slice(), numbers)?)?;
            kept.push(Kept::new(zero_replies(alloc, model, getters.as_slice())?))?;
        }
        Ok(Keeper { actions, kept })
    }

    /// What an operation of an object does.
    fn action(&self, object: usize, operation: u32) -> Action
        ensures { result ≡ action_in (slice_index_or self.now.actions object []) operation }
    {
        match self.actions.get(object) {
            Some(rows) => row_deed(rows.as_slice(), operation),
            None => Action::Nothing,
        }
    }

    /// The tape of an attribute of an object.
    fn tape(&self, object: usize, attribute: usize) -> &[u8]
        ensures { result.now ≡ tape_at self.now object attribute }
    {
        match self.kept.get(object) {
            Some(kept) => kept.tape(attribute),
            None => &[],
        }
    }

    /// Gives an attribute of an object another tape.
    fn set(&mut self, object: usize, attribute: usize, tape: Vec<u8>)
        ensures { self.new ≡ with_tape self.old object attribute tape.items }
    {
        if object < self.kept.len() {
            self.kept[object].set(attribute, tape);
        }
    }
}

impl Servant for Keeper {
    ghost use Rattle.broker_answers.specs.Keeping.{after, says};

    ghost says = { says };

    ghost after = { after };

    fn call(
        &mut self,
        alloc: Global,
        object: usize,
        operation: u32,
        arguments: &[u8],
    ) -> Result<Outcome, AllocError> {
        match self.action(object, operation) {
            Action::Get(attribute) => {
                let tape = self.tape(object, attribute);
                Ok(Outcome::Done(Vec::from_slice(alloc, tape)?))
            }
            Action::Set(attribute) => {
                self.set(object, attribute, Vec::from_slice(alloc, arguments)?);
                Ok(Outcome::Done(Vec::new(alloc)))
            }
            Action::Empty => Ok(Outcome::Done(Vec::new(alloc))),
            Action::Echo => Ok(Outcome::Done(Vec::from_slice(alloc, arguments)?)),
            Action::Nothing => Ok(Outcome::NoImplement),
        }
    }
}
