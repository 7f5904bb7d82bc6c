//! What is served.

ghost use Rattle.std.specs.Prelude.{◌≡◌, option_map, IfOk};
ghost use Rattle.giop_messages.specs.Messages.{asked_of};
ghost use Rattle.broker_answers.specs.Findings.{Finds};
ghost use Rattle.broker_answers.specs.inner.FindingSteps.{IsKnown, finding_of};
ghost use Rattle.broker_answers.specs.Objects.{AreServed, interface_of, object_with as object_of, objects_of, served};

use crate::exception::BrokerException;
use crate::finding::{AskedCall, Finding, is_called, read_body, type_asked};
use crate::objects::{Object, operation_named, place_of};
use giop::{Giop, Request};
use position_checker::Accepted;
use std::alloc::{AllocError, Global};
use std::marker::Model;
use type_model::Interface;

/// The objects that are served, and the accepted types of their interfaces. A contract sees the
/// model of these, and each object's key with the place of its interface.
#[derive(Drop)]
pub struct Service {
    pub(crate) giop: Giop,
    pub(crate) accepted: Accepted,
    objects: Vec<Object>,
}

impl Model for Service {
    ghost use Rattle.std.specs.Prelude.{◌≡◌};
    ghost use Rattle.type_model.specs.ModelRules.{IsModel};
    ghost use Rattle.giop_types.specs.GiopModel.{giop_table};
    ghost use Rattle.broker_answers.specs.Objects.{AreServed, Served, objects_of, served};

    ghost Value = { Served };

    ghost view = { λ s. served s.accepted.model (objects_of s.objects.items) };

    ghost invariant = { λ s. (s.giop ≡ giop_table) × IsModel s.accepted.model
        × AreServed s.accepted.model (objects_of s.objects.items) };
}

impl Service {
    /// These objects of accepted types. Takes no memory.
    pub fn new(giop: Giop, accepted: Accepted, objects: Vec<(Vec<u8>, u32)>) -> Service
        requires { AreServed accepted.model (objects_of objects.items) }
        ensures { result ≡ served accepted.model (objects_of objects.items) }
    {
        Service {
            giop,
            accepted,
            objects,
        }
    }

    /// The place of the object with a key.
    pub(crate) fn object_with(&self, key: &Option<Vec<u8>>) -> Option<usize>
        ensures { result ≡ object_of self.now.objects (option_map (λ k. k.items) key.now) }
    {
        match key {
            Some(key) => place_of(self.objects.as_slice(), key.as_slice()),
            None => None,
        }
    }

    /// The interface of the object at a place.
    pub(crate) fn interface_of(&self, place: usize) -> Option<&Interface>
        ensures is { option_map (λ i. i.now) result ≡ interface_of self.now place }
        ensures rules { AreServed self.now.model self.now.objects }
    {
        let (_, interface) = self.objects.get(place)?;
        self.accepted
            .table()
            .model()
            .interfaces()
            .get(*interface as usize)
    }

    /// What a request asks for: its object, the operation of that object's interface, the arguments.
    ///
    /// # Errors
    /// Want of memory.
    #[tactic(auto, using(crate::proofs::Lookups::request_named))]
    pub(crate) fn find(
        &self,
        alloc: Global,
        request: &Request<'_>,
    ) -> Result<Finding<'_>, AllocError>
        ensures known { IfOk result (λ f. IsKnown self.now.model f) }
        ensures finds { IfOk result (λ f. Finds self.now (asked_of request.now) (finding_of f)) }
    {
        let Some(object) = self.object_with(&request.key) else {
            return Ok(Finding::Refuses(BrokerException::ObjectNotExist));
        };
        let Some(interface) = self.interface_of(object) else {
            unreachable!();
        };
        if is_called(request, "_is_a") {
            return type_asked(&self.giop, alloc, interface, request);
        }
        if is_called(request, "_non_existent") {
            return Ok(Finding::Tells(false));
        }
        let model = self.accepted.table().model();
        let name = request.operation.as_slice();
        let Some((number, operation)) = operation_named(model, interface, name) else {
            return Ok(Finding::Refuses(BrokerException::BadOperation));
        };
        match read_body(alloc, &self.accepted, operation.request, request)? {
            Some(arguments) => Ok(Finding::Calls(AskedCall {
                object,
                number,
                operation,
                arguments,
            })),
            None => Ok(Finding::Refuses(BrokerException::Marshal)),
        }
    }
}
