// One period of a table, with all that the choice of its section looks at: its two ends, the nodes there, its average and the running
// total before it.
#[derive(Clone, Copy)]
pub struct Period {
    pub x_prev: f64,
    pub x_next: f64,
    pub f_prev: f64,
    pub f_next: f64,
    pub f_average: f64,
    pub prev_primitive: f64,
}
