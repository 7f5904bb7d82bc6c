//! The arms of unions, while they are read.

ghost use Rattle.std.specs.Prelude.{◌≡◌, ◌≤◌, ◌++◌, insert, length, map, IfOk, OnOk};
ghost use Rattle.lowered_types.specs.Labels.{arm_label_at, keyword_at, no_arms, with_arm, with_case};
ghost use Rattle.lowered_types.specs.Types.{arm_at, default_sites, default_number, default_test, numbered_arm};

use crate::fault::{BuildFault, TypeFault};
use crate::labels::{CaseLabels, Switch};
use idl_tree::names::At;
use std::alloc::{AllocError, Global};
use std::marker::Model;
use type_graph::Items;
use type_model::Name;

/// What a label of a union chooses: a member whose type has the number; where the label and the
/// member's declarator stand.
#[derive(Clone, Copy)]
pub(crate) struct Arm {
    pub label: i128,
    pub label_at: At,
    pub number: u32,
    pub at: At,
}

/// What every other value chooses; where the member's declarator and the keyword stand.
#[derive(Clone, Copy)]
pub(crate) struct DefaultArm {
    pub number: u32,
    pub at: At,
    pub keyword: At,
}

/// The arms of a union in rising order of their labels, and what every other value chooses; what the
/// members are called, in the order of the text.
#[derive(Drop)]
pub(crate) struct ArmList {
    arms: Vec<Arm>,
    default: Option<DefaultArm>,
    names: Vec<Name>,
}

impl Model for ArmList {
    ghost use Rattle.lowered_types.specs.Labels.{Arms};

    ghost Value = { Arms };

    ghost view = { λ a. record { arms = a.arms.items; default = a.default; names = a.names.items } };
}

/// Before which arm a label comes: the first whose label is greater.
fn place_of(arms: &[Arm], arm: Arm) -> usize
    ensures within { result ≤ length arms.now }
    ensures there { insert arms.now result arm ≡ with_arm arms.now arm }
{
    for (place, other) in arms.iter().enumerate() {
        if arm.label < other.label {
            return place;
        }
    }
    arms.len()
}

impl ArmList {
    /// No arms. Takes no memory.
    pub fn new(alloc: Global) -> Self
        ensures { result ≡ no_arms }
    {
        ArmList {
            arms: Vec::new(alloc),
            default: None,
            names: Vec::new(alloc),
        }
    }

    /// Where the label of an arm stands.
    pub fn label_at(&self, label: i128) -> Option<At>
        ensures { result ≡ arm_label_at self.now.arms label }
    {
        for arm in &self.arms {
            if arm.label == label {
                return Some(arm.label_at);
            }
        }
        None
    }

    /// Where the keyword of the default stands.
    pub fn keyword_at(&self) -> Option<At>
        ensures { result ≡ keyword_at self.now.default }
    {
        match self.default {
            Some(arm) => Some(arm.keyword),
            None => None,
        }
    }

    /// How many labels there are.
    pub fn len(&self) -> usize
        ensures { result ≡ length self.now.arms }
    {
        self.arms.len()
    }

    fn insert(&mut self, arm: Arm) -> Result<(), AllocError>
        ensures { OnOk result (self.new ≡ record self.old { arms = with_arm self.old.arms arm }) }
    {
        let place = place_of(self.arms.as_slice(), arm);
        self.arms.insert(place, arm)?;
        Ok(())
    }

    /// A case more, whose member has the name and a type of the number, and stands there.
    ///
    /// # Errors
    /// Want of memory.
    pub fn add_case(
        &mut self,
        name: Name,
        number: u32,
        at: At,
        labels: &CaseLabels,
    ) -> Result<(), AllocError>
        ensures { OnOk result (self.new ≡ with_case self.old name number at labels.now) }
    {
        for label in labels.values() {
            self.insert(Arm {
                label: label.value,
                label_at: label.at,
                number,
                at,
            })?;
        }
        if let Some(keyword) = labels.keyword() {
            self.default = Some(DefaultArm {
                number,
                at,
                keyword,
            });
        }
        self.names.push(name)?;
        Ok(())
    }

    /// That a default is needed, where there is one.
    ///
    /// # Errors
    /// `DefaultNeedless` where the labels are all of the values.
    pub fn check_default(&self, switch: Switch) -> Result<(), BuildFault>
        ensures { result ≡ default_test switch (length self.now.arms) self.now.default }
    {
        match self.default {
            Some(arm) if self.arms.len() as u128 >= switch.values.count => {
                let at = arm.keyword;
                Err(BuildFault::Types(TypeFault::DefaultNeedless { at }))
            }
            _ => Ok(()),
        }
    }

    /// The labels, each with the number of its member's type.
    pub fn numbers(&self, alloc: Global) -> Result<Vec<(i128, u32)>, AllocError>
        ensures { IfOk result (λ arms. arms.items ≡ map numbered_arm self.now.arms) }
    {
        let mut numbers = Vec::new(alloc);
        for arm in &self.arms {
            numbers.push((arm.label, arm.number))?;
        }
        Ok(numbers)
    }

    /// The number of the default's type.
    pub fn default_number(&self) -> Option<u32>
        ensures { result ≡ default_number self.now.default }
    {
        match self.default {
            Some(arm) => Some(arm.number),
            None => None,
        }
    }

    /// Gives the names of the members. Takes no memory.
    pub fn into_names(self) -> Items<Name>
        ensures { result ≡ self.names }
    {
        let ArmList {
            arms: _,
            default: _,
            names,
        } = self;
        Items::new(names)
    }

    /// Where the members stand.
    pub fn sites(&self, alloc: Global) -> Result<Vec<At>, AllocError>
        ensures { IfOk result (λ sites. sites.items ≡ map arm_at self.now.arms ++ default_sites self.now.default) }
    {
        let mut sites = Vec::new(alloc);
        for arm in &self.arms {
            sites.push(arm.at)?;
        }
        if let Some(arm) = self.default {
            sites.push(arm.at)?;
        }
        Ok(sites)
    }
}
