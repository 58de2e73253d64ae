//! Whether an event may happen: a test of each fact that the model asks for, for each kind of
//! event.

mod answering;
mod cell;
mod connect;
mod data;
mod drop;
mod grant;
mod local;
mod raise;
mod same;

pub use connect::permits_connect;
pub use data::permits_data;
pub use drop::permits_drop;
pub use grant::permits_grant;
pub use local::permits_local;
pub use raise::permits_raise;
