mod codes;
mod vector_files;
mod vectors;
