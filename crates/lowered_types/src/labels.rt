//! The discriminators of unions and their labels (ISO/IEC 19500-1, unions).

ghost use Rattle.std.specs.Prelude.{◌≡◌, ◌≤◌, ◌^◌, length, option_copied, Some};
ghost use Rattle.idl_tree.specs.Lists.{parts};
ghost use Rattle.type_graph.specs.declared.node.Node.TheVariants.{Integer as IntegerNode};
ghost use Rattle.lowered_types.specs.Faults.{Tells, each};
ghost use Rattle.lowered_types.specs.Labels.{default_added, is_value, label_added, label_number, label_value, label_within, no_labels, once_test, out_of_range, signed_values, switch_at, switch_kind, switch_of, switch_read, switch_type, switched, taken_at, value_added, value_at, values_below, values_of};
ghost use Rattle.lowered_types.specs.Lowered.{already};

use crate::arms::ArmList;
use crate::fault::{BuildFault, LabelWorth, TypeFault, TypeKind, at_most};
use crate::kinds::{const_kind, kind_of_type};
use crate::members::MAX_MEMBERS;
use crate::readings::{declared_entry, integer_number, read_value, resolved};
use crate::simple::lower_enum;
use crate::table::{TypeTable, find_type};
use idl_tree::expression::Expr;
use idl_tree::names::{At, Listed};
use idl_tree::types::{Label, SwitchType};
use name_table::const_values::{ConstKind, Constant};
use scoped_names::{Names, Scope};
use std::alloc::Global;
use std::marker::Model;
use type_graph::{GraphLimit, Node, Values, Width, basic_types};

/// The discriminator of a union: its type, of which type its labels are constants, its values.
#[derive(Clone, Copy)]
pub(crate) struct Switch {
    pub number: u32,
    pub kind: ConstKind,
    pub values: Values,
}

/// The value of a label, which stands there.
#[derive(Clone, Copy)]
pub(crate) struct LabelValue {
    pub value: i128,
    pub at: At,
}

/// The labels of a case while they are read: their values, and where `default` stands.
#[derive(Drop)]
pub(crate) struct CaseLabels {
    values: Vec<LabelValue>,
    default: Option<At>,
}

impl Model for CaseLabels {
    ghost use Rattle.lowered_types.specs.Labels.{CaseLabels};

    ghost Value = { CaseLabels };

    ghost view = { λ l. record { values = l.values.items; default = l.default } };
}

/// That nothing else has the value, or is a default, which would stand there.
///
/// # Errors
/// `LabelTwice` where something has.
fn check_once(at: At, other: Option<At>) -> Result<(), BuildFault>
    ensures { result ≡ once_test at other }
{
    match other {
        Some(other) => Err(BuildFault::Types(TypeFault::LabelTwice { at, other })),
        None => Ok(()),
    }
}

impl CaseLabels {
    /// No labels. Takes no memory.
    fn new(alloc: Global) -> Self
        ensures { result ≡ no_labels }
    {
        CaseLabels {
            values: Vec::new(alloc),
            default: None,
        }
    }

    /// The values.
    pub fn values(&self) -> &[LabelValue]
        ensures { result.now ≡ self.now.values }
    {
        self.values.as_slice()
    }

    /// Where `default` stands.
    pub fn keyword(&self) -> Option<At>
        ensures { result ≡ self.now.default }
    {
        self.default
    }

    /// Where the label of the value stands.
    fn value_at(&self, value: i128) -> Option<At>
        ensures { result ≡ value_at self.now.values value }
    {
        for label in &self.values {
            if label.value == value {
                return Some(label.at);
            }
        }
        None
    }

    /// Where an arm or a label before stands that has the value.
    fn taken_at(&self, arms: &ArmList, value: i128) -> Option<At>
        ensures { result ≡ taken_at arms.now self.now value }
    {
        arms.label_at(value).or(self.value_at(value))
    }

    /// A value more, which stands there.
    ///
    /// # Errors
    /// `LabelTwice`, `Limit` where the arms and the labels are 1,024, want of memory.
    fn add_value(&mut self, arms: &ArmList, at: At, value: i128) -> Result<(), BuildFault>
        ensures { Tells result (λ u. self.new) (value_added arms.now self.old at value) }
    {
        check_once(at, self.taken_at(arms, value))?;
        let count = arms.len() as u128 + self.values.len() as u128 + 1;
        at_most(MAX_MEMBERS, GraphLimit::Members, at, count)?;
        self.values.push(LabelValue { value, at })?;
        Ok(())
    }

    /// A `default` at `at`.
    ///
    /// # Errors
    /// `LabelTwice` where there is one.
    fn add_default(&mut self, arms: &ArmList, at: At) -> Result<(), BuildFault>
        ensures { Tells result (λ u. self.new) (default_added arms.now self.old at) }
    {
        check_once(at, arms.keyword_at().or(self.default))?;
        self.default = Some(at);
        Ok(())
    }
}

/// A label more.
///
/// # Errors
/// Those of its expression; `LabelRange`, `LabelTwice`, `Limit`; want of memory.
fn add_label<'a>(
    names: &Names<'a>,
    read: &mut CaseLabels,
    alloc: Global,
    scope: Scope,
    switch: Switch,
    arms: &ArmList,
    label: &Label<'a>,
) -> Result<(), BuildFault>
    requires { scope.0 ≤ length names.now.entries }
    ensures { Tells result (λ u. read.new) (label_added names.now.entries scope.0 switch arms.now read.old label.now) }
{
    match label {
        Label::Case(value) => {
            let at = value.expr.start().at();
            let value = read_label(alloc, names, scope, switch, &value.expr)?;
            read.add_value(arms, at, value)
        }
        Label::Default(word) => {
            let at = word.at();
            read.add_default(arms, at)
        }
    }
}

/// The labels of a case, judged against the arms of the cases before and against one another.
///
/// # Errors
/// The first fault in the order of reading; want of memory.
pub(crate) fn read_labels<'a>(
    alloc: Global,
    names: &Names<'a>,
    scope: Scope,
    switch: Switch,
    arms: &ArmList,
    labels: &Listed<Label<'a>>,
) -> Result<CaseLabels, BuildFault>
    requires { scope.0 ≤ length names.now.entries }
    ensures { Tells result (λ ls. ls)
        (each (label_added names.now.entries scope.0 switch arms.now) no_labels (parts labels.now)) }
{
    let mut read = CaseLabels::new(alloc);
    for label in labels.iter() {
        add_label(names, &mut read, alloc, scope, switch, arms, label)?;
    }
    Ok(read)
}

/// The value of a discriminator for which a constant stands; None of a text.
fn value_of(constant: &Constant) -> Option<i128>
    ensures { result ≡ label_number constant.now }
{
    match constant {
        Constant::Integer(value) => Some(*value),
        Constant::Boolean(false) => Some(0),
        Constant::Boolean(true) => Some(1),
        Constant::Character(octet) => Some(i128::from(*octet)),
        Constant::Text(_) => None,
        Constant::Enumerator { enumerator, owner } => {
            Some(enumerator.saturating_sub(*owner).saturating_sub(1) as i128)
        }
    }
}

/// Whether a number is one of the values.
fn is_value(values: Values, n: i128) -> bool
    ensures { result ≡ is_value values n }
{
    values.least <= n && n < values.end
}

/// What is told of a label that is no value of the discriminator. Takes no memory.
fn out_of_range(switch: Switch, at: At, constant: &Constant) -> TypeFault
    ensures { result ≡ out_of_range switch at constant.now }
{
    let found = match constant {
        Constant::Integer(value) => LabelWorth::Integer(*value),
        Constant::Boolean(value) => LabelWorth::Boolean(*value),
        Constant::Character(octet) => LabelWorth::Character(*octet),
        Constant::Text(_) => LabelWorth::Text,
        Constant::Enumerator { enumerator, .. } => LabelWorth::Enumerator(*enumerator),
    };
    TypeFault::LabelRange {
        at,
        found,
        kind: const_kind(switch.kind),
        values: switch.values,
    }
}

/// The value, where the constant is of the discriminator's type. Takes no memory.
fn label_within(
    switch: Switch,
    at: At,
    constant: &Constant,
    value: Option<i128>,
) -> Result<i128, BuildFault>
    ensures { result ≡ label_within switch at constant.now value }
{
    match value {
        Some(value) if switch.kind.admits(constant) && is_value(switch.values, value) => Ok(value),
        _ => Err(BuildFault::Types(out_of_range(switch, at, constant))),
    }
}

/// The value of a label.
///
/// # Errors
/// `OtherNames` where it has none, `LabelRange` where it is none of the discriminator, want of
/// memory.
fn read_label<'a>(
    alloc: Global,
    names: &Names<'a>,
    scope: Scope,
    switch: Switch,
    expr: &Expr<'a>,
) -> Result<i128, BuildFault>
    requires { scope.0 ≤ length names.now.entries }
    ensures { Tells result (λ n. n) (label_value names.now.entries scope.0 switch expr.now) }
{
    let constant = read_value(alloc, names, scope, expr)?;
    let at = expr.start().at();
    label_within(switch, at, &constant, value_of(&constant))
}

/// So many values from 0 on.
fn values_below(count: u128) -> Values
    requires { count ≤ 2 ^ 64 }
    ensures { result ≡ values_below count }
{
    Values {
        least: 0,
        end: count as i128,
        count,
    }
}

/// As many values below 0 as from 0 on.
fn signed_values(count: u128) -> Values
    requires { count ≤ 2 ^ 64 }
    ensures { result ≡ signed_values count }
{
    let half = (count / 2) as i128;
    Values {
        least: -half,
        end: half,
        count,
    }
}

fn whole_values(width: Width, is_signed: bool) -> Values
    ensures { Some result ≡ values_of (Some (IntegerNode width is_signed)) }
{
    let count = width.patterns();
    if is_signed {
        signed_values(count)
    } else {
        values_below(count)
    }
}

/// The values of a discriminator of the type; an octet is none.
fn values_of(node: Option<&Node>) -> Option<Values>
    ensures { result ≡ values_of (option_copied node.entry) }
{
    match node {
        Some(Node::Integer { width, signed }) => Some(whole_values(*width, *signed)),
        Some(Node::Char) => Some(values_below(256)),
        Some(Node::Boolean) => Some(values_below(2)),
        Some(Node::Enum { n }) => Some(values_below(u128::from(*n))),
        _ => None,
    }
}

/// Of which type the labels of a union are constants. Takes no memory.
///
/// # Errors
/// `OtherNames` where its name finds nothing.
fn kind_of<'a>(
    names: &Names<'a>,
    scope: Scope,
    switch: &SwitchType<'a>,
) -> Result<Option<ConstKind>, BuildFault>
    requires { scope.0 ≤ length names.now.entries }
    ensures { result ≡ switch_kind names.now.entries scope.0 switch.now }
{
    Ok(match switch {
        SwitchType::Integer(integer) => Some(ConstKind::Integer(*integer)),
        SwitchType::Char => Some(ConstKind::Char),
        SwitchType::Boolean => Some(ConstKind::Boolean),
        SwitchType::Enum(e) => Some(ConstKind::Enum(declared_entry(names, scope, e.identifier)?)),
        SwitchType::Name(name) => {
            let entry = resolved(names, scope, name)?;
            names.stands_for(entry)
        }
    })
}

/// Where a discriminator without labels is told: at its name, or else where its union stands.
fn switch_at(switch: &SwitchType<'_>, at: At) -> At
    ensures { result ≡ switch_at switch.now at }
{
    match switch {
        SwitchType::Name(name) => name.start().at(),
        SwitchType::Enum(e) => e.identifier.at(),
        _ => at,
    }
}

/// The discriminator that has labels. Takes no memory.
fn switch_of(
    at: At,
    found: Option<TypeKind>,
    number: u32,
    kind: Option<ConstKind>,
    values: Option<Values>,
) -> Result<Switch, BuildFault>
    ensures { result ≡ switch_of at found number kind values }
{
    match (kind, values) {
        (Some(kind), Some(values)) => Ok(Switch {
            number,
            kind,
            values,
        }),
        _ => Err(BuildFault::Types(TypeFault::BadSwitch { at, found })),
    }
}

/// The type of a discriminator; gives its number.
fn lower_switch_type<'a>(
    names: &Names<'a>,
    table: &mut TypeTable,
    alloc: Global,
    scope: Scope,
    switch: &SwitchType<'a>,
) -> Result<u32, BuildFault>
    requires { scope.0 ≤ length names.now.entries }
    ensures { Tells result (already table.new) (switch_type names.now.entries table.old scope.0 switch.now) }
{
    match switch {
        SwitchType::Integer(integer) => Ok(integer_number(*integer)),
        SwitchType::Char => Ok(basic_types::CHAR),
        SwitchType::Boolean => Ok(basic_types::BOOLEAN),
        SwitchType::Enum(e) => lower_enum(names, table, alloc, scope, e),
        SwitchType::Name(name) => find_type(names, table, scope, name),
    }
}

/// The discriminator of a union that stands there.
///
/// # Errors
/// Those of its name or enumeration; `BadSwitch` where it has no labels; want of memory.
pub(crate) fn lower_switch<'a>(
    names: &Names<'a>,
    table: &mut TypeTable,
    alloc: Global,
    scope: Scope,
    at: At,
    switch: &SwitchType<'a>,
) -> Result<Switch, BuildFault>
    requires { scope.0 ≤ length names.now.entries }
    ensures { Tells result (switched table.new) (switch_read names.now.entries table.old scope.0 at switch.now) }
{
    let number = lower_switch_type(names, table, alloc, scope, switch)?;
    let kind = kind_of(names, scope, switch)?;
    let node = table.nodes().get(number as usize);
    let found = kind_of_type(number, node);
    switch_of(switch_at(switch, at), found, number, kind, values_of(node))
}
