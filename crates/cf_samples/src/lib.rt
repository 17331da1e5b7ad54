//! Samples for the tests of several crates: two assets, their endpoints, and commands that they allow or refuse. No crate
//! takes them outside its tests.
#![tactic(auto)]

ghost use Rattle.std.specs.Prelude.{◌≡◌, ◌∷◌, [], IfOk};
ghost use Rattle.cf_policy.specs.Within.{IsAssetWithin};
ghost use Rattle.cf_samples.specs.Assets.{pump_asset, rtu_asset};

pub mod expand;
pub mod rows;
pub mod source;

use cf_policy::{Action, Asset, Items, Name, Protocol, Rule, Span};
use cf_view::Endpoint;
use std::alloc::{AllocError, Global};

/// A client, 10.0.0.5:49152.
pub const CLIENT: Endpoint = Endpoint {
    address: 0x0A00_0005,
    port: 49_152,
};

/// The endpoint of the asset `pump`, 10.0.0.9:502.
pub const PUMP: Endpoint = Endpoint {
    address: 0x0A00_0009,
    port: 502,
};

/// The endpoint of the asset `rtu`, 10.0.0.10:20000.
pub const RTU: Endpoint = Endpoint {
    address: 0x0A00_000A,
    port: 20_000,
};

/// A Modbus write of 100 to register 40, which `pump` allows.
pub const WRITE: &[u8] = b"\x00\x01\x00\x00\x00\x06\x01\x06\x00\x28\x00\x64";

/// A Modbus write of 100 to register 50, which `pump` refuses.
pub const REFUSED: &[u8] = b"\x00\x01\x00\x00\x00\x06\x01\x06\x00\x32\x00\x64";

/// The exception that answers the refused write: illegal data address.
pub const EXCEPTION: &[u8] = b"\x00\x01\x00\x00\x00\x03\x01\x86\x02";

/// A DNP3 direct operate of analog output 5 with 100, which `rtu` refuses.
pub const OPERATE: &[u8] =
    b"\x05\x64\x18\xC4\x0A\x00\x01\x00\x3D\x3A\xC0\xC3\x05\x0C\x01\x17\x01\x05\x03\x01\x64\x00\x00\x00\x64\x00\xE3\xE7\x00\x00\x00\xFF\xFF";

/// The response to the refused operate: status 9, not authorized.
pub const RESPONSE: &[u8] =
    b"\x05\x64\x1A\x44\x01\x00\x0A\x00\xAF\x5D\xC0\xC3\x81\x00\x00\x0C\x01\x17\x01\x05\x03\x01\x64\x00\x00\x00\xBC\x51\x64\x00\x00\x00\x09\xD7\x92";

/// The list of one span.
pub fn one_span(alloc: Global, low: i64, high: i64) -> Result<Items<Span>, AllocError>
    ensures { IfOk result (λ spans. spans ≡ record { low = low; high = high } ∷ []) }
{
    let mut items = Vec::new(alloc);
    items.push(Span { low, high })?;
    Ok(Items::new(items))
}

/// The Modbus asset `pump`, whose rule `set` allows single writes of 0 to 500 to the registers 40 to 49.
pub fn pump(alloc: Global) -> Result<Asset, AllocError>
    ensures asset { IfOk result (λ asset. asset ≡ pump_asset) }
    ensures within { IfOk result (λ asset. IsAssetWithin asset) }
{
    let mut rules = Vec::new(alloc);
    rules.push(Rule {
        name: Name::from_text("set"),
        action: Action::Allow,
        clients: Items::new(Vec::new(alloc)),
        codes: one_span(alloc, 6, 6)?,
        groups: Items::new(Vec::new(alloc)),
        points: one_span(alloc, 40, 49)?,
        values: one_span(alloc, 0, 500)?,
        rate: None,
        log: false,
    })?;
    Ok(Asset {
        name: Name::from_text("pump"),
        endpoint: PUMP,
        protocol: Protocol::Modbus,
        station: 1,
        master: 0,
        rules: Items::new(rules),
    })
}

/// The DNP3 asset `rtu`, an outstation of address 10 with the master 1, which has no rule and so allows nothing.
pub fn rtu(alloc: Global) -> Asset
    ensures asset { result ≡ rtu_asset }
    ensures within { IsAssetWithin result }
{
    Asset {
        name: Name::from_text("rtu"),
        endpoint: RTU,
        protocol: Protocol::Dnp3,
        station: 10,
        master: 1,
        rules: Items::new(Vec::new(alloc)),
    }
}
