// Each crate of tests has its own, so that it reads alone. Three spans that meet: up, over the top and down, and further down.
pub static THREE: [i32; 12] = [
    -5000, 12_000, 0, 0, 7000, 0, -9000, 0, -2000, -3000, 1000, 500,
];
