//! The limits of a policy that is read from a text. This project's own, but for the ranges of stations.

/// The most bytes of a name of an asset or a rule.
pub const LONGEST_NAME: usize = 32;
/// The most assets of a policy.
pub const MOST_ASSETS: usize = 256;
/// The most rules of an asset.
pub const MOST_RULES: usize = 1024;
/// The most spans of a list of a rule.
pub const MOST_SPANS: usize = 64;
/// The highest address of a client.
pub const HIGHEST_ADDRESS: i64 = 4_294_967_295;
/// The highest function code or type identification.
pub const HIGHEST_CODE: i64 = 255;
/// The highest group of an act.
pub const HIGHEST_GROUP: i64 = 65_535;
/// The highest point of an act.
pub const HIGHEST_POINT: i64 = 4_294_967_295;
/// The lowest value that an act writes: that of a signed number of 32 bits.
pub const LOWEST_VALUE: i64 = -2_147_483_648;
/// The highest value that an act writes: that of an unsigned number of 32 bits.
pub const HIGHEST_VALUE: i64 = 4_294_967_295;
/// The highest unit identifier of Modbus, an octet. MODBUS Application Protocol V1.1b3, section 4.1.
pub const HIGHEST_UNIT: u16 = 255;
/// The highest link address of DNP3 that names one station. IEEE 1815-2012, section 9.2.
pub const HIGHEST_LINK_ADDRESS: u16 = 65_519;
/// The highest common address that names one station; 0 names none. IEC 60870-5-101, section 7.2.4.
pub const HIGHEST_COMMON_ADDRESS: u16 = 65_534;
/// The most commands that a rate lets through in its time.
pub const HIGHEST_MOST: u32 = 64;
/// The longest time of a rate, in seconds: a day.
pub const LONGEST_RATE: u32 = 86_400;
/// The most rules of an asset that have a rate.
pub const MOST_RATED: usize = 16;
/// The most assets behind one address and port: as many as there are unit loads on a serial line (TIA-485-A).
pub const MOST_AT_SITE: usize = 32;
/// The most assets of DNP3 behind one address and port, each of which may have two fragments that are not whole yet.
pub const MOST_DNP3_AT_SITE: usize = 8;
