ghost use Rattle.std.specs.Prelude.{IsTrue};
ghost use Rattle.index.specs.Servers.{accepted};

use std::error::Error;
use std::fmt;

/// The set-up of a registry: how many servers there are at first, how many partitions each has room for, and how many entries a partition
/// must pass before it is split.
#[derive(Clone, Copy, Debug)]
pub struct Settings {
    servers: u8,
    per_server: u8,
    threshold: u16,
    ghost within_limits: { IsTrue (accepted servers per_server threshold) },
}

/// Why settings are refused, with the number of the refusal in answers.
#[derive(Clone, Copy, PartialEq, Eq, Debug)]
pub enum SettingsRefusal {
    OutsideLimits = 30,
}

impl SettingsRefusal {
    ghost use Rattle.std.specs.Prelude.{◌≡◌};
    ghost use Rattle.index.specs.Setting.{refusal_number};

    /// The number of the refusal in answers.
    // Kept: each refusal has this call, since a trait for it would have to stand in a crate below all of them.
    pub fn number(self) -> u8
        ensures { result ≡ refusal_number self }
    {
        self as u8
    }
}

impl fmt::Display for SettingsRefusal {
    ghost use Rattle.std.specs.Prelude.{Some};
    ghost use Rattle.index.specs.Setting.{refusal_words};

    ghost output = { λ refusal. Some (refusal_words refusal) };

    fn fmt<W: fmt::Write>(&self, f: &mut fmt::Formatter<W>) -> fmt::Result {
        f.write_str(match self {
            SettingsRefusal::OutsideLimits => "a setting is outside its limits",
        })
    }
}

impl Error for SettingsRefusal {}

impl Settings {
    ghost use Rattle.std.specs.Prelude.{◌≡◌};
    ghost use Rattle.index.specs.Servers.{holder, has_server};
    ghost use Rattle.index.specs.Setting.{set_up, settings_answer};

    /// 1 to 32 servers, 1 to 16 partitions each, a threshold of 1 to 8,000; all else is refused.
    pub fn new(servers: u8, per_server: u8, threshold: u16) -> Result<Settings, SettingsRefusal>
        ensures { settings_answer result ≡ set_up servers per_server threshold }
    {
        if (1..=32).contains(&servers)
            && (1..=16).contains(&per_server)
            && (1..=8000).contains(&threshold)
        {
            Ok(Settings {
                servers,
                per_server,
                threshold,
            })
        } else {
            Err(SettingsRefusal::OutsideLimits)
        }
    }

    pub fn servers(&self) -> u8
        ensures { result ≡ self.now.servers }
    {
        self.servers
    }

    pub fn per_server(&self) -> u8
        ensures { result ≡ self.now.per_server }
    {
        self.per_server
    }

    pub fn threshold(&self) -> u16
        ensures { result ≡ self.now.threshold }
    {
        self.threshold
    }

    /// The number of the server that holds partition p: those that the first servers have room for go round them in turn, and each server
    /// that is added takes the next ones.
    pub fn holder(&self, p: u16) -> u16
        ensures { result ≡ holder self.now.servers self.now.per_server p }
    {
        let servers = u16::from(self.servers);
        let per_server = u16::from(self.per_server);
        if p < servers * per_server {
            p % servers
        } else {
            p / per_server
        }
    }

    /// Whether partition p has a server, where there are that many servers now; a number above 511 is no partition and has none.
    pub fn has_server(&self, p: u16, servers_now: u8) -> bool
        ensures { result ≡ has_server self.now.per_server servers_now p }
    {
        p < 512 && p < u16::from(servers_now) * u16::from(self.per_server)
    }
}
