// A period, the settings for it, and how far its two nodes stand from its average: g_prev for the node before it, g_next for the one after.
use crate::period::Period;
use table::method::ConvexMonotone;

#[derive(Clone, Copy)]
pub(crate) struct Case {
    pub method: ConvexMonotone,
    pub period: Period,
    pub g_prev: f64,
    pub g_next: f64,
}
