//! The offices of one or two plans, and clerks of each.
ghost use Rattle.std.specs.Prelude.{◌≡◌, ◌⊎◌, ◌<◌, ◌≤◌, true, false, None, Some, Option, IfOk, IfErr, IfSome, MatchBool, length, option_map, slice_get};
ghost use Rattle.std.specs.List.{All};
ghost use Rattle.numbers.specs.Bounds.{max_tickets};
ghost use Rattle.numbers.specs.Sets.{IsSet};
ghost use Rattle.numbers.specs.Sums.{AreAllBelow};
ghost use Rattle.dealer.specs.Offices.{RefusesTicket, share_of, tickets_of};
ghost use Rattle.clerks.specs.Clerks.{ClerksState, OfficesState, AreDealt, AreWhole, IsDealt, IsDealtBy, IsThere, IsWholeIn, drawn, use_second_plan, fresh_clerk, fresh_clerks, joined_each, joined_first, joined_second, less_each, may_exchange, names_of, office_names, offices_with, quorums_in, quorums_of, quota_in, quota_of, receipts_in, receipts_of, rest_in, rest_of, share_in, share_of_plan, with_less, with_receipt};

use certificate::Plan;
use dealer::{Clerk, Cycle, DealFault, Office, Receipt};
use quorum_set::{QSet, Side};
use std::alloc::{AllocError, Global};
use std::marker::Model;

/// The office of the first plan, and that of the second plan, if there is one.
#[derive(Drop)]
pub struct Offices {
    first: Office,
    second: Option<Office>,
}

impl Model for Offices {
    ghost use Rattle.clerks.specs.Clerks.{OfficesState};

    ghost Value = { OfficesState };

    ghost view = { λ o. record { first = o.first; second = o.second } };
}

/// The clerk of the first plan, that of the second plan, if there is one, and the plan in use.
#[derive(Drop)]
pub struct Clerks {
    first: Clerk,
    second: Option<Clerk>,
    side: Side,
}

impl Model for Clerks {
    ghost use Rattle.clerks.specs.Clerks.{ClerksState};

    ghost Value = { ClerksState };

    ghost view = { λ k. record { first = k.first; second = k.second; side = k.side } };
}

/// Opens the office of a plan, with a clerk that may draw all its `quota` tickets.
fn open_office(alloc: Global, plan: Plan, quota: u64) -> Result<(Office, Clerk), AllocError>
    requires { quota ≤ max_tickets }
    ensures cycle { IfOk result (λ made. made.0.name.cycle ≡ plan) }
    ensures quota { IfOk result (λ made. made.0.quota ≡ quota) }
    ensures clerk { IfOk result (λ made. made.1 ≡ fresh_clerk made.0.name quota) }
{
    let cycle = Cycle::from_plan(alloc, plan)?;
    match Office::new(alloc, cycle, quota) {
        Ok(made) => Ok(made),
        Err((_, error)) => Err(error),
    }
}

/// Opens the office of the second plan, if there is one, with its clerk.
fn open_second(
    alloc: Global,
    plan: Option<Plan>,
    quota: u64,
) -> Result<(Option<Office>, Option<Clerk>), AllocError>
    requires { quota ≤ max_tickets }
    ensures cycle { IfOk result (λ made. option_map (λ o. o.name.cycle) made.0 ≡ plan) }
    ensures quota { IfOk result (λ made. IfSome made.0 (λ o. o.quota ≡ quota)) }
    ensures clerk { IfOk result (λ made. made.1 ≡ option_map (λ o. fresh_clerk o.name quota) made.0) }
{
    let Some(plan) = plan else {
        return Ok((None, None));
    };
    let (office, clerk) = open_office(alloc, plan, quota)?;
    Ok((Some(office), Some(clerk)))
}

/// Opens the offices of one or two plans, with clerks that may draw all the `quota` tickets of each.
pub fn open_offices(
    alloc: Global,
    first: Plan,
    second: Option<Plan>,
    quota: u64,
) -> Result<(Offices, Clerks), AllocError>
    requires { quota ≤ max_tickets }
    ensures first { IfOk result (λ made. made.0.first.name.cycle ≡ first) }
    ensures second { IfOk result (λ made. option_map (λ o. o.name.cycle) made.0.second ≡ second) }
    ensures quota { IfOk result (λ made. made.0 ≡ offices_with (office_names made.0) quota) }
    ensures clerks { IfOk result (λ made. made.1 ≡ fresh_clerks (office_names made.0) quota) }
{
    let (first, first_clerk) = open_office(alloc, first, quota)?;
    let (second, second_clerk) = open_second(alloc, second, quota)?;
    Ok((
        Offices { first, second },
        Clerks {
            first: first_clerk,
            second: second_clerk,
            side: Side::First,
        },
    ))
}

/// Ends an office with a clerk that has all its tickets, drawn or left.
fn end_office(office: Office, clerk: Clerk)
    requires office { clerk.office ≡ office.name }
    requires whole { office.quota ≤ share_of clerk }
    ensures { AreAllBelow (tickets_of clerk.receipts) (length clerk.receipts) }
{
    let _ = office.end(clerk);
}

/// Ends the office of the second plan, if there is one.
fn end_second(office: Option<Office>, clerk: Option<Clerk>)
    requires office { option_map (λ k. k.office) clerk ≡ option_map (λ o. o.name) office }
    requires whole { IsWholeIn office clerk }
    ensures { AreAllBelow (tickets_of (receipts_in clerk)) (length (receipts_in clerk)) }
{
    if let (Some(office), Some(clerk)) = (office, clerk) {
        end_office(office, clerk);
    }
}

impl Offices {
    /// Returns the quorum with this number of a plan's coterie.
    pub fn quorum(&self, side: Side, number: usize) -> &QSet
        requires { number < length (quorums_of (office_names self.now) side) }
        ensures value { slice_get (quorums_of (office_names self.now) side) number ≡ Some result.now }
        ensures set { IsSet result.now }
        ensures some { 1 ≤ length result.now }
    {
        match (side, &self.second) {
            (Side::Second, Some(second)) => second.cycle().plan().coterie().quorum(number),
            _ => self.first.cycle().plan().coterie().quorum(number),
        }
    }

    /// Ends the offices with clerks that have all their tickets, drawn or left.
    pub fn end(self, clerks: Clerks)
        requires names { names_of clerks ≡ office_names self }
        requires whole { AreWhole self clerks }
        ensures first { AreAllBelow (tickets_of clerks.first.receipts) (length clerks.first.receipts) }
        ensures second { AreAllBelow (tickets_of (receipts_in clerks.second)) (length (receipts_in clerks.second)) }
    {
        let Offices { first, second } = self;
        end_office(first, clerks.first);
        end_second(second, clerks.second);
    }
}

/// Has the clerk of the second plan draw. Without such a clerk there is no ticket to draw.
fn draw_second(clerk: &mut Option<Clerk>, office: &Option<Office>) -> Result<Receipt, DealFault>
    requires office { option_map (λ k. k.office) clerk.old ≡ option_map (λ o. o.name) office.now }
    ensures dealt { IfOk result (λ r. IsDealtBy (option_map (λ k. k.office) clerk.old) r.ticket r.quorum) }
    ensures in_range { IfOk result (λ r. r.quorum < length (quorums_in (option_map (λ k. k.office) clerk.old))) }
    ensures above { IfOk result (λ r. All (λ t. t < r.ticket) (tickets_of (receipts_in clerk.old))) }
    ensures below { IfOk result (λ r. r.ticket < quota_in office.now) }
    ensures next { share_in clerk.old ≡ quota_in office.now →
        IfOk result (λ r. r.ticket ≡ length (receipts_in clerk.old)) }
    ensures kept { IfOk result (λ r. clerk.new ≡ option_map (λ x. with_receipt x r) clerk.old) }
    ensures some { IfOk result (λ _. 0 < rest_in clerk.old) }
    ensures err { IfErr result (RefusesTicket (rest_in clerk.old)) }
    ensures unchanged { IfErr result (λ _. clerk.new ≡ clerk.old) }
{
    match (clerk, office) {
        (Some(clerk), Some(office)) => office.draw(clerk),
        _ => Err(DealFault::QuotaSpent),
    }
}

/// Splits off a clerk of the second plan, if there is one, with `quota` of its tickets.
fn split_second(clerk: &mut Option<Clerk>, office: &Option<Office>, quota: u64) -> Option<Clerk>
    requires office { option_map (λ k. k.office) clerk.old ≡ option_map (λ o. o.name) office.now }
    requires rest { IfSome clerk.old (λ k. quota ≤ k.rest) }
    ensures given { result ≡ option_map (λ k. fresh_clerk k.office quota) clerk.old }
    ensures kept { clerk.new ≡ option_map (λ x. with_less x quota) clerk.old }
{
    match (clerk, office) {
        (Some(clerk), Some(office)) => Some(clerk.split(office, quota)),
        _ => None,
    }
}

/// Joins another clerk of the second plan to this one, if there are two.
fn join_second(
    clerk: &mut Option<Clerk>,
    office: &Option<Office>,
    other: Option<Clerk>,
) -> Result<(), AllocError>
    requires office { option_map (λ k. k.office) clerk.old ≡ option_map (λ o. o.name) office.now }
    requires other { option_map (λ k. k.office) other ≡ option_map (λ o. o.name) office.now }
    ensures joined { IfOk result (λ _. clerk.new ≡ joined_second clerk.old other) }
    ensures unchanged { IfErr result (λ _. clerk.new ≡ clerk.old) }
    ensures office { option_map (λ k. k.office) clerk.new ≡ option_map (λ k. k.office) clerk.old }
{
    match (clerk, office, other) {
        (Some(clerk), Some(office), Some(other)) => match clerk.join(office, other) {
            Ok(()) => Ok(()),
            Err((_, error)) => Err(error),
        },
        _ => Ok(()),
    }
}

impl Clerks {
    /// Returns the plan in use.
    pub fn side(&self) -> Side
        ensures { result ≡ self.now.side }
    {
        self.side
    }

    /// Returns the receipts of a plan. Without such a plan there are none.
    pub fn receipts(&self, side: Side) -> &[Receipt]
        ensures value { result.now ≡ receipts_of self.now side }
        ensures dealt { AreDealt (names_of self.now) side (receipts_of self.now side) }
    {
        match (side, &self.second) {
            (Side::First, _) => self.first.receipts(),
            (Side::Second, Some(second)) => second.receipts(),
            (Side::Second, None) => &[],
        }
    }

    /// Uses the second plan from here on. Returns `false` if there is none, or if it is in use
    /// already, and then changes nothing.
    pub fn exchange(&mut self) -> bool
        ensures { MatchBool result
            ((may_exchange self.old ≡ true) × (self.new ≡ use_second_plan self.old))
            ((may_exchange self.old ≡ false) × (self.new ≡ self.old)) }
    {
        match (self.side, &self.second) {
            (Side::First, Some(_)) => {
                self.side = Side::Second;
                true
            }
            _ => false,
        }
    }

    /// Draws the next ticket of the plan in use, which has to be there. The offices have to be these
    /// clerks'. Fails as `Office::draw` does.
    pub fn draw(&mut self, offices: &Offices) -> Result<Receipt, DealFault>
        requires offices { names_of self.old ≡ office_names offices.now }
        requires there { IsThere self.old.side self.old.second }
        ensures dealt { IfOk result (λ r. IsDealt (names_of self.old) self.old.side r.ticket r.quorum) }
        ensures in_range { IfOk result (λ r.
            r.quorum < length (quorums_of (names_of self.old) self.old.side)) }

        // The ticket is above all that this clerk has of the plan in use. It is the next number if
        // no other clerk has a share of that plan's tickets.
        ensures above { IfOk result (λ r.
            All (λ t. t < r.ticket) (tickets_of (receipts_of self.old self.old.side))) }
        ensures below { IfOk result (λ r. r.ticket < quota_of offices.now self.old.side) }
        ensures next { share_of_plan self.old self.old.side ≡ quota_of offices.now self.old.side →
            IfOk result (λ r. r.ticket ≡ length (receipts_of self.old self.old.side)) }

        ensures kept { IfOk result (λ r. self.new ≡ drawn self.old r) }
        ensures some { IfOk result (λ _. 0 < rest_of self.old self.old.side) }
        ensures err { IfErr result (RefusesTicket (rest_of self.old self.old.side)) }
        ensures unchanged { IfErr result (λ _. self.new ≡ self.old) }
    {
        match self.side {
            Side::First => offices.first.draw(&mut self.first),
            Side::Second => draw_second(&mut self.second, &offices.second),
        }
    }

    /// Splits off a new clerk of each plan, with `quota` of its tickets. The first plan is in use.
    pub fn split(&mut self, offices: &Offices, quota: u64) -> Clerks
        requires offices { names_of self.old ≡ office_names offices.now }
        requires rest { quota ≤ self.old.first.rest }
        requires second { IfSome self.old.second (λ k. quota ≤ k.rest) }
        ensures given { result ≡ fresh_clerks (names_of self.old) quota }
        ensures kept { self.new ≡ less_each self.old quota }
    {
        Clerks {
            first: self.first.split(&offices.first, quota),
            second: split_second(&mut self.second, &offices.second, quota),
            side: Side::First,
        }
    }

    /// Joins another member's clerks to these. Fails only if it runs out of memory, and then those
    /// of the others that did not join are lost. These clerks keep all their own receipts.
    pub fn join(&mut self, offices: &Offices, other: Clerks) -> Result<(), AllocError>
        requires offices { names_of self.old ≡ office_names offices.now }
        requires other { names_of other ≡ office_names offices.now }
        ensures joined { IfOk result (λ _. self.new ≡ joined_each self.old other) }

        // After a failure nothing changed, or the first plan's clerks alone are joined.
        ensures err { IfErr result (λ _. (self.new ≡ self.old) ⊎ (self.new ≡ joined_first self.old other)) }

        ensures names { names_of self.new ≡ names_of self.old }
    {
        match self.first.join(&offices.first, other.first) {
            Ok(()) => {}
            Err((_, error)) => return Err(error),
        }
        join_second(&mut self.second, &offices.second, other.second)
    }
}
