// Plates of two trays that are read twice, and plates of two racks that are written by rows.

mod devices;
mod reading;
mod writing;
