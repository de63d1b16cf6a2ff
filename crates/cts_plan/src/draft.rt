// The site as it grows, statement by statement.
ghost use Rattle.std.specs.Prelude.{◌≡◌, ◌≤◌, length, Some, OnOk, IfOk, IsTrue};
ghost use Rattle.cts_def.specs.Most.{most_desks, most_interfaces};
ghost use Rattle.cts_def.specs.Protocols.{is_layout};
ghost use Rattle.cts_def.specs.Sites.{is_cycle};
ghost use Rattle.cts_plan.specs.Standing.{start, closed, number_of, change_interface, change_router, change, with_port, with_desks, with_log_layout};
ghost use Rattle.cts_plan.specs.Standing.{with_log_cycle, place};
ghost use Rattle.cts_plan.specs.Completing.{due};
ghost use Rattle.cts_plan.specs.Keeping.{KeepsRules, FitsInterface, IsNewRoute, FitsRouter, FitsCurrent, Fits};
ghost use Rattle.cts_reader.specs.Reading.{Settles};
ghost use Rattle.cts_plan.specs.declared.line.Detail.TheVariants as detail;
ghost use Rattle.cts_plan.specs.declared.line.Line.TheVariants as line;

use crate::completing::{add_interface, add_router};
use crate::fault::SiteFault;
use crate::line::{Detail, Line};
use crate::opened::{Current, InterfaceDraft, RouterDraft};
use cts_base::{List, Memory, Name};
use cts_def::{Definitions, Interface, Site};
use std::alloc::Global;
use std::mem;

/// What stands so far.
#[derive(Drop)]
pub struct Draft {
    /// The interfaces and routers that are complete, and the settings of the whole server.
    pub site: Site,
    /// The interface or router that is read.
    pub current: Current,
    /// Whether a statement gave the layout of logs: the one that is the default leaves the site as it was.
    pub layout_said: bool,
}

fn change_interface(site: &Site, draft: &mut InterfaceDraft, detail: Detail) -> Result<(), Memory>
    requires fits { FitsInterface site.now detail draft.old }
    ensures { OnOk result (draft.new ≡ change_interface detail draft.old) }
{
    match detail {
        Detail::Target(name) => draft.targets.push(name)?,
        Detail::Step(step) => draft.chain.push(step)?,
        Detail::Route(_name) => {}
        Detail::Delay(delay) => draft.delay = delay,
        Detail::DontReconnect => draft.reconnect = false,
        Detail::Logged(logged) => draft.logged = logged,
    }
    Ok(())
}

/// The number of the interface of this name, counted from 0.
pub(crate) fn number_of(interfaces: &[Interface], name: &Name) -> u32
    requires few { length interfaces.now ≤ most_interfaces }
    ensures { result ≡ number_of interfaces.now name.now }
{
    let mut number: u32 = 0;
    for interface in interfaces {
        if interface.name == *name {
            return number;
        }
        number += 1;
    }
    number
}

fn add_route(site: &Site, draft: &mut RouterDraft, name: Name) -> Result<(), Memory>
    requires new { IsNewRoute site.now.interfaces (Some name) draft.old.routes }
    ensures { OnOk result (draft.new ≡ change_router site.now.interfaces (detail.Route (Some name)) draft.old) }
{
    let number = number_of(site.interfaces.as_slice(), &name);
    draft.routes.push(number)?;
    Ok(())
}

fn change_router(site: &Site, draft: &mut RouterDraft, detail: Detail) -> Result<(), Memory>
    requires fits { FitsRouter site.now detail draft.old }
    ensures { OnOk result (draft.new ≡ change_router site.now.interfaces detail draft.old) }
{
    match detail {
        Detail::Step(step) => draft.chain.push(step)?,
        Detail::Route(Some(name)) => add_route(site, draft, name)?,
        Detail::Route(None) => {}
        Detail::Target(_name) => {}
        Detail::Delay(_delay) => {}
        Detail::DontReconnect => {}
        Detail::Logged(_logged) => {}
    }
    Ok(())
}

fn change(site: &Site, current: &mut Current, detail: Detail) -> Result<(), Memory>
    requires fits { FitsCurrent site.now detail current.old }
    ensures { OnOk result (current.new ≡ change site.now.interfaces detail current.old) }
{
    match current {
        Current::Nothing => {
            drop(detail);
            Ok(())
        }
        Current::Interface(draft) => change_interface(site, draft, detail),
        Current::Router(draft) => change_router(site, draft, detail),
    }
}

fn set_port(site: &mut Site, port: u16)
    requires some { 1 ≤ port }
    ensures { site.new ≡ with_port port site.old }
{
    site.api_port = port;
}

fn set_desks(site: &mut Site, desks: u32)
    requires some { 1 ≤ desks }
    requires few { desks ≤ most_desks }
    ensures { site.new ≡ with_desks desks site.old }
{
    site.desks = desks;
}

fn set_log_layout(site: &mut Site, layout: u32)
    requires layout { IsTrue (is_layout layout) }
    ensures { site.new ≡ with_log_layout layout site.old }
{
    site.log_layout = layout;
}

fn set_log_cycle(site: &mut Site, bytes: u64)
    requires cycle { IsTrue (is_cycle (Some bytes)) }
    ensures { site.new ≡ with_log_cycle bytes site.old }
{
    site.log_cycle = Some(bytes);
}

impl Draft {
    /// The draft before the first statement.
    pub(crate) fn new(alloc: Global, definitions: Definitions) -> Draft
        ensures { result ≡ start definitions }
    {
        Draft {
            site: Site {
                definitions,
                interfaces: List::new(alloc),
                routers: List::new(alloc),
                api_port: 7777,
                desks: 4,
                log_layout: 2,
                log_cycle: None,
            },
            current: Current::Nothing,
            layout_said: false,
        }
    }

    /// Completes what is read, or says why it is refused. After an error the draft is of no use.
    pub(crate) fn complete(&mut self, alloc: Global) -> Result<(), SiteFault>
        requires { KeepsRules self.old }
        ensures settled { Settles result (due self.old) }
        ensures closed { OnOk result (self.new ≡ closed self.old) }
    {
        match mem::replace(&mut self.current, Current::Nothing) {
            Current::Nothing => Ok(()),
            Current::Interface(draft) => add_interface(alloc, &mut self.site, draft),
            Current::Router(draft) => add_router(alloc, &mut self.site, draft),
        }
    }

    // Reads this from now on, in the place of what was read.
    fn begin(&mut self, current: Current)
        ensures { self.new ≡ record self.old { current = current } }
    {
        self.current = current;
    }

    // Takes the layout of logs that a statement gives.
    fn take_layout(&mut self, layout: u32)
        requires layout { IsTrue (is_layout layout) }
        ensures { self.new ≡ place (line.LogLayout layout) self.old }
    {
        set_log_layout(&mut self.site, layout);
        self.layout_said = true;
    }

    /// Adds what a statement without a cause says. After `Memory` the draft is of no use.
    pub(crate) fn add(&mut self, line: Line) -> Result<(), Memory>
        requires fits { Fits line self.old }
        ensures { OnOk result (self.new ≡ place line self.old) }
    {
        match line {
            Line::Nothing => {}
            Line::ApiPort(port) => set_port(&mut self.site, port),
            Line::Desks(desks) => set_desks(&mut self.site, desks),
            Line::LogLayout(layout) => self.take_layout(layout),
            Line::LogCycle(bytes) => set_log_cycle(&mut self.site, bytes),
            Line::Interface(draft) => self.begin(Current::Interface(draft)),
            Line::Router(draft) => self.begin(Current::Router(draft)),
            Line::Detail(detail) => change(&self.site, &mut self.current, detail)?,
        }
        Ok(())
    }

    /// The site, with what is complete.
    pub(crate) fn into_site(self) -> Site
        ensures { result ≡ self.site }
    {
        let Draft {
            site,
            current: _,
            layout_said: _,
        } = self;
        site
    }
}
