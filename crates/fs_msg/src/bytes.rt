//! Messages as bytes.

pub(crate) mod answer;
pub(crate) mod client_msg;
pub(crate) mod decide;
pub(crate) mod done;
pub(crate) mod end;
pub(crate) mod entry;
pub(crate) mod grant;
pub(crate) mod lead;
pub(crate) mod led_end;
pub(crate) mod msg;
pub(crate) mod parcel;
pub(crate) mod peer_msg;
pub(crate) mod prepare;
pub(crate) mod record;
pub(crate) mod voted;
pub(crate) mod why;
