//! Function codes and the control octet of a fragment. IEEE 1815-2012, sections 4.2 and 4.4.
//! A confirmation has no acts.

/// FIR and FIN, of the only fragment of a message.
pub(crate) const SINGLE: u8 = 0xC0;
/// The function code of a confirmation.
pub const CONFIRM: u8 = 0;
/// That of a direct operate without a reply.
pub(crate) const DIRECT_OPERATE_UNANSWERED: u8 = 6;
/// That of a freeze without a reply.
pub(crate) const FREEZE_UNANSWERED: u8 = 8;
/// That of a freeze and clear without a reply.
pub(crate) const FREEZE_CLEAR_UNANSWERED: u8 = 10;
/// That of a response.
pub(crate) const RESPONSE: u8 = 0x81;
