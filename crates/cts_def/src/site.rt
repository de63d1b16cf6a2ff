// All that a server is configured with.

use crate::{Definitions, Interface, Router};
use cts_base::List;
use std::marker::Model;

/// The definitions, the interfaces and routers, and the desks of JSON clients.
#[derive(Drop)]
pub struct Site {
    /// The packets and commands.
    pub definitions: Definitions,
    /// The interfaces, in order of the site file.
    pub interfaces: List<Interface>,
    /// The routers, in order of the site file.
    pub routers: List<Router>,
    /// The port of the JSON interface.
    pub api_port: u16,
    /// How many of its clients are served at once.
    pub desks: u32,
    /// The layout in which logs are written, 2 or 4.
    pub log_layout: u32,
    /// How many bytes a part of a log has at most where it has more than one entry; without it each log is one part.
    pub log_cycle: Option<u64>,
}

impl Model for Site {
    ghost use Rattle.cts_def.specs.Sites.{SiteData, IsSoundSite};

    ghost Value = { SiteData };

    ghost view = { λ s. record {
      definitions = s.definitions;
      interfaces = s.interfaces;
      routers = s.routers;
      api_port = s.api_port;
      desks = s.desks;
      log_layout = s.log_layout;
      log_cycle = s.log_cycle;
    } };

    ghost invariant = { λ s. IsSoundSite (record {
      definitions = s.definitions;
      interfaces = s.interfaces;
      routers = s.routers;
      api_port = s.api_port;
      desks = s.desks;
      log_layout = s.log_layout;
      log_cycle = s.log_cycle;
    }) };
}
