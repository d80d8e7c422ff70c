mod order;
mod stops;
